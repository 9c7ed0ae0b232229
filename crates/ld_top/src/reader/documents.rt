//! The documents in the six files of a unit.
#![tactic(auto, unfolding(crate::specs::Folder::docs_in, crate::specs::Folder::json_faults, crate::specs::Reading::json_faults_of), using(ld_json::proofs::First::first_of_both, ld_json::proofs::First::says_more, ld_json::proofs::Json::no_tree, ld_json::proofs::Json::tree_read))]

ghost use Rattle.std.specs.Prelude.{◌≡◌, [], ◌∷◌, IfOk, OnOk, IfErr};
ghost use Rattle.ld_base.specs.Maybe.{◌>>=◌ as ◌then◌};
ghost use Rattle.ld_json.specs.Fault.{SaysFirst};
ghost use Rattle.ld_json.specs.Json.{json_of};
ghost use Rattle.ld_json.specs.declared.file.FileNo.TheVariants as file_no;
ghost use Rattle.ld_top.specs.Folder.{docs_in, json_fault, json_faults};
ghost use Rattle.ld_top.specs.Reading.{held_by, json_faults_of};

use crate::reader::stop::fault_of_file;
use json::Scratch;
use ld_base::Bytes;
use ld_json::{Code, Doc, DocFault, Docs, FileNo, ReadFault, Scratches, document};
use std::alloc::Global;

/// The documents in two of the files.
type TwoDocs<'a> = (Option<Doc<'a>>, Option<Doc<'a>>);

/// The documents in these files.
pub(super) fn read_documents<'a>(
    alloc: Global,
    files: &'a [Option<Bytes>; 6],
    scratches: &'a mut Scratches,
) -> Result<Docs<'a>, ReadFault>
    ensures docs { IfOk result (λ docs. docs ≡ docs_in (held_by files.now)) }
    ensures faultless { OnOk result (json_faults (held_by files.now) ≡ []) }
    ensures first { IfErr result (SaysFirst (json_faults (held_by files.now))) }
{
    let [roles, properties, _, _, _, _] = files;
    let roles = read_document(alloc, roles, FileNo::Roles, &mut scratches.roles)?;
    let properties = read_document(
        alloc,
        properties,
        FileNo::Properties,
        &mut scratches.properties,
    )?;
    let ((environments, activities), (unit, conditions)) = read_later_documents(
        alloc,
        files,
        &mut scratches.environments,
        &mut scratches.activities,
        &mut scratches.unit,
        &mut scratches.conditions,
    )?;
    Ok(Docs {
        roles,
        properties,
        environments,
        activities,
        unit,
        conditions,
    })
}

/// The documents in the last four of these files, each with its scratch.
fn read_later_documents<'a>(
    alloc: Global,
    files: &'a [Option<Bytes>; 6],
    for_environments: &'a mut Scratch,
    for_activities: &'a mut Scratch,
    for_unit: &'a mut Scratch,
    for_conditions: &'a mut Scratch,
) -> Result<(TwoDocs<'a>, TwoDocs<'a>), ReadFault>
    ensures environments { IfOk result (λ later.
        later.0.0 ≡ (held_by files.now file_no.Environments then json_of)) }
    ensures activities { IfOk result (λ later.
        later.0.1 ≡ (held_by files.now file_no.Activities then json_of)) }
    ensures unit { IfOk result (λ later.
        later.1.0 ≡ (held_by files.now file_no.Unit then json_of)) }
    ensures conditions { IfOk result (λ later.
        later.1.1 ≡ (held_by files.now file_no.Conditions then json_of)) }
    ensures faultless { OnOk result (json_faults_of (file_no.Environments ∷ file_no.Activities
        ∷ file_no.Unit ∷ file_no.Conditions ∷ []) (held_by files.now) ≡ []) }
    ensures first { IfErr result (SaysFirst (json_faults_of (file_no.Environments
        ∷ file_no.Activities ∷ file_no.Unit ∷ file_no.Conditions ∷ []) (held_by files.now))) }
{
    let [_, _, environments, activities, _, _] = files;
    let environments = read_document(alloc, environments, FileNo::Environments, for_environments)?;
    let activities = read_document(alloc, activities, FileNo::Activities, for_activities)?;
    let last = read_last_documents(alloc, files, for_unit, for_conditions)?;
    Ok(((environments, activities), last))
}

/// The documents in the last two of these files, each with its scratch.
fn read_last_documents<'a>(
    alloc: Global,
    files: &'a [Option<Bytes>; 6],
    for_unit: &'a mut Scratch,
    for_conditions: &'a mut Scratch,
) -> Result<TwoDocs<'a>, ReadFault>
    ensures unit { IfOk result (λ last. last.0 ≡ (held_by files.now file_no.Unit then json_of)) }
    ensures conditions { IfOk result (λ last.
        last.1 ≡ (held_by files.now file_no.Conditions then json_of)) }
    ensures faultless { OnOk result (
        json_faults_of (file_no.Unit ∷ file_no.Conditions ∷ []) (held_by files.now) ≡ []) }
    ensures first { IfErr result (SaysFirst (
        json_faults_of (file_no.Unit ∷ file_no.Conditions ∷ []) (held_by files.now))) }
{
    let [_, _, _, _, unit, conditions] = files;
    let unit = read_document(alloc, unit, FileNo::Unit, for_unit)?;
    let conditions = read_document(alloc, conditions, FileNo::Conditions, for_conditions)?;
    Ok((unit, conditions))
}

/// The document in this file, if the file is there.
fn read_document<'a>(
    alloc: Global,
    bytes: &'a Option<Bytes>,
    file: FileNo,
    scratch: &'a mut Scratch,
) -> Result<Option<Doc<'a>>, ReadFault>
    ensures doc { IfOk result (λ doc. doc ≡ (bytes.now then json_of)) }
    ensures faultless { OnOk result (json_fault file bytes.now ≡ []) }
    ensures first { IfErr result (SaysFirst (json_fault file bytes.now)) }
{
    let Some(bytes) = bytes else {
        return Ok(None);
    };
    match document(alloc, bytes.as_slice(), scratch) {
        Ok(doc) => Ok(Some(doc)),
        Err(DocFault::NotJson) => {
            Err(ReadFault::Refused(fault_of_file(alloc, file, Code::NotJson)))
        }
        Err(DocFault::NoMemory) => Err(ReadFault::NoMemory),
    }
}
