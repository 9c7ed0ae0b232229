//! The canonical documents, printed.
ghost use Rattle.std.specs.Prelude.{◌≡◌, ◌++◌, false, true, Some, IfOk, OnOk};
ghost use Rattle.serde_json.specs.Written.{has_float};
ghost use Rattle.ld_canon.specs.Documents.{IsCanonicalText};
ghost use Rattle.ld_canon.specs.Texts.{file_text, text_at, docs_text, AreWhole};
ghost use Rattle.ld_formats.specs.Units.{is_well_formed};
ghost use Rattle.ld_json.specs.Files.{file_name};

use crate::units::documents;
use ld_base::{NoMemory, Text};
use ld_json::{Doc, Docs, FileNo};
use ld_model::Unit;
use std::alloc::Global;

/// The canonical documents of the unit as they are printed, in the order of the files: a line with
/// the name of each file, as `# unit.json`, and a line with its document. The only error is out of
/// memory. (docs/FORMATS.md, "Canonical documents")
pub fn canonical_text(alloc: Global, unit: &Unit) -> Result<Text, NoMemory>
    requires { is_well_formed unit.now ≡ true }
    ensures { IfOk result (λ text. IsCanonicalText unit.now text.bytes) }
{
    let docs = documents(alloc, unit)?;
    let mut text = Text::new(alloc);
    print_documents(alloc, &docs, &mut text)?;
    Ok(text)
}

/// Appends the documents, in the order of the files.
fn print_documents(alloc: Global, docs: &Docs, out: &mut Text) -> Result<(), NoMemory>
    requires { AreWhole docs.now }
    ensures { OnOk result (out.new.bytes ≡ out.old.bytes ++ docs_text docs.now) }
{
    print_file(alloc, docs, FileNo::Roles, out)?;
    print_file(alloc, docs, FileNo::Properties, out)?;
    print_file(alloc, docs, FileNo::Environments, out)?;
    print_file(alloc, docs, FileNo::Activities, out)?;
    print_file(alloc, docs, FileNo::Unit, out)?;
    print_file(alloc, docs, FileNo::Conditions, out)?;
    Ok(())
}

/// Appends the document of the file, if there is one.
fn print_file(alloc: Global, docs: &Docs, file: FileNo, out: &mut Text) -> Result<(), NoMemory>
    requires { AreWhole docs.now }
    ensures { OnOk result (out.new.bytes ≡ out.old.bytes ++ text_at docs.now file) }
{
    match docs.get(file) {
        None => Ok(()),
        Some(doc) => print_document(alloc, file, doc, out),
    }
}

/// Appends a line with the name of the file and a line with the document.
fn print_document(alloc: Global, file: FileNo, doc: &Doc, out: &mut Text) -> Result<(), NoMemory>
    requires { has_float doc.now ≡ false }
    ensures { OnOk result (out.new.bytes
        ≡ out.old.bytes ++ file_text (file_name file) (Some doc.now)) }
{
    out.push("# ")?;
    out.push(file.name())?;
    out.push("\n")?;
    doc.print(alloc, out)?;
    out.push("\n")
}
