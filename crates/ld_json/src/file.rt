//! The six documents of a unit, in their order.
ghost use Rattle.std.specs.Prelude.{◌≡◌};
ghost use Rattle.ld_json.specs.Files.{file_name};

/// A document of a unit.
#[derive(Clone, Copy, Debug, PartialEq, Eq)]
pub enum FileNo {
    Roles,
    Properties,
    Environments,
    Activities,
    Unit,
    Conditions,
}

impl FileNo {
    /// The name of the document's file.
    pub fn name(self) -> &'static str
        ensures { result.now ≡ file_name self }
    {
        match self {
            FileNo::Roles => "roles.json",
            FileNo::Properties => "properties.json",
            FileNo::Environments => "environments.json",
            FileNo::Activities => "activities.json",
            FileNo::Unit => "unit.json",
            FileNo::Conditions => "conditions.json",
        }
    }
}
