//! The documents of one unit.
ghost use Rattle.std.specs.Prelude.{◌≡◌, option_copied};
ghost use Rattle.ld_json.specs.Docs.{document_of};

use crate::doc::Doc;
use crate::file::FileNo;
use json::Scratch;
use std::alloc::Global;

/// Room for the texts with escapes of the documents of a unit, which a document borrows.
#[derive(Drop)]
pub struct Scratches {
    pub roles: Scratch,
    pub properties: Scratch,
    pub environments: Scratch,
    pub activities: Scratch,
    pub unit: Scratch,
    pub conditions: Scratch,
}

impl Scratches {
    /// Room for nothing yet. It takes no memory.
    pub fn new(alloc: Global) -> Scratches {
        Scratches {
            roles: Scratch::new(alloc),
            properties: Scratch::new(alloc),
            environments: Scratch::new(alloc),
            activities: Scratch::new(alloc),
            unit: Scratch::new(alloc),
            conditions: Scratch::new(alloc),
        }
    }
}

/// The documents of a unit; None where a file is not there.
#[derive(Drop)]
pub struct Docs<'a> {
    pub roles: Option<Doc<'a>>,
    pub properties: Option<Doc<'a>>,
    pub environments: Option<Doc<'a>>,
    pub activities: Option<Doc<'a>>,
    pub unit: Option<Doc<'a>>,
    pub conditions: Option<Doc<'a>>,
}

impl<'a> Docs<'a> {
    /// The document of this file, if it is there.
    pub fn get(&self, file: FileNo) -> Option<&Doc<'a>>
        ensures { option_copied result ≡ document_of self.now file }
    {
        match file {
            FileNo::Roles => self.roles.as_ref(),
            FileNo::Properties => self.properties.as_ref(),
            FileNo::Environments => self.environments.as_ref(),
            FileNo::Activities => self.activities.as_ref(),
            FileNo::Unit => self.unit.as_ref(),
            FileNo::Conditions => self.conditions.as_ref(),
        }
    }
}
