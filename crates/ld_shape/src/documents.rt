//! The documents of a unit, by the shape of what they hold.
ghost use Rattle.ld_json.specs.Fault.{Says};
ghost use Rattle.ld_shape.specs.Documents.{absent_file, required_reading, document_reading};
ghost use Rattle.ld_shape.specs.Reading.{GivesOrSays};

use crate::reads::Reads;
use ld_base::Text;
use ld_json::{Code, Docs, Fault, FileNo, ReadFault};
use std::alloc::Global;

/// The document of this file, which has to be there.
pub fn read_required<R: Reads>(
    alloc: Global,
    docs: &Docs<'_>,
    file: FileNo,
) -> Result<R::Value, ReadFault>
    ensures { GivesOrSays (required_reading file R.shape docs.now) result }
{
    let Some(document) = docs.get(file) else {
        return Err(absent(alloc, file));
    };
    R::read(alloc, &document.root(file))
}

/// The refusal that the document of this file is not there.
fn absent(alloc: Global, file: FileNo) -> ReadFault
    ensures { Says (absent_file file) result }
{
    ReadFault::Refused(Fault {
        file,
        place: Text::new(alloc),
        code: Code::Absent,
    })
}

/// The document of this file, or the default where the file is not there.
pub fn read_document_or<R: Reads>(
    alloc: Global,
    docs: &Docs<'_>,
    file: FileNo,
    default: R::Value,
) -> Result<R::Value, ReadFault>
    ensures { GivesOrSays (document_reading default file R.shape docs.now) result }
{
    let Some(document) = docs.get(file) else {
        return Ok(default);
    };
    R::read(alloc, &document.root(file))
}
