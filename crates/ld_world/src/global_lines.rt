//! Lines that ask the store of global values for something.
ghost use Rattle.std.specs.Prelude.{◌≡◌, ◌≢◌, ◌≤◌, ◌+◌, ◌++◌, ◌∷◌, [], List, ℕ, Some, codes, option_copied, option_map, IfOk, IfSome, OnErr, OnOk};
ghost use Rattle.ld_base.specs.Roomy.{KeepsRoom, room_of};
ghost use Rattle.ld_globals.specs.Store.{KeepsWrites};
ghost use Rattle.ld_lines.specs.declared.line.Line.TheVariants as line;
ghost use Rattle.ld_model.specs.declared.unit.Unit.{Unit};
ghost use Rattle.ld_replies.specs.Replies.{printed_value, refusal_text};
ghost use Rattle.ld_run.specs.Reply.{reply_to_refusal};
ghost use Rattle.ld_run.specs.RunView.{RunView};
ghost use Rattle.ld_value.specs.Datum.{datum_of};
ghost use Rattle.ld_value.specs.Values.{HasText};
ghost use Rattle.ld_value.specs.declared.moment.Moment.{Moment as MomentOf};
ghost use Rattle.ld_world.specs.Answers.{RepliesTo};
ghost use Rattle.ld_world.specs.GlobalFaults.{refusal_to_get, refusal_to_set};
ghost use Rattle.ld_world.specs.WorldView.{IsStoreOf, world_with};

use crate::refusing::refuse_line;
use ld_admission::Refusal;
use ld_base::{Id, NoMemory, PlainText, Steps, Text};
use ld_globals::{GlobalFault, Globals, SetFault};
use ld_replies::push_value;
use ld_run::Reply;
use ld_value::Value;
use std::alloc::Global;
use std::sync::ledger::Ledger;

/// Gives the key the value of the text, or says why not. Where memory runs out the store stays as
/// it was.
pub(crate) fn set_global(
    alloc: Global,
    globals: &mut Globals,
    uri: &PlainText,
    person: Option<&Id>,
    text: &PlainText,
    out: &mut Text,
) -> Result<Reply, NoMemory>
    requires room { 128 ≤ room_of out.old }
    ensures ok { (units : List Unit) (runs : List (List ℕ × RunView)) (moment : MomentOf)
        → IsStoreOf units globals.old → IfOk result (λ reply. RepliesTo (world_with units globals.old runs)
        (Some (line.GlobalSet moment uri.now (option_copied person.entry) text.now))
        reply out.new.bytes (world_with units globals.new runs)) }
    ensures declared { globals.new.declared ≡ globals.old.declared }
    ensures kept { KeepsWrites globals.old globals.new }
    ensures err { OnErr result (globals.new ≡ globals.old) }
    ensures room { 128 ≤ room_of out.new }
{
    let key = Text::of(alloc, uri.as_str())?;
    match globals.set(&key, person, text.as_str()) {
        Ok(()) => {
            say_set(out);
            Ok(Reply::done_alone())
        }
        Err(fault) => refuse_to_set(fault, out),
    }
}

/// Tells the value of the key, or says why not.
pub(crate) fn get_global<L: Ledger>(
    alloc: Global,
    globals: &Globals,
    uri: &PlainText,
    person: Option<&Id>,
    out: &mut Text,
    steps: &mut Steps<L>,
) -> Result<Reply, NoMemory>
    ensures ok { (units : List Unit) (runs : List (List ℕ × RunView)) (moment : MomentOf)
        → IsStoreOf units globals.now → IfOk result (λ reply. RepliesTo (world_with units globals.now runs)
        (Some (line.GlobalGet moment uri.now (option_copied person.entry)))
        reply out.new.bytes (world_with units globals.now runs)) }
    ensures room { KeepsRoom out.old out.new }
    ensures cost { steps.new ≤ steps.old + 1 }
{
    let key = Text::of(alloc, uri.as_str())?;
    match globals.get(&key, person, steps) {
        Ok(value) => {
            tell_value(alloc, value, out)?;
            Ok(Reply::done_alone())
        }
        Err(fault) => refuse_to_get(fault, out),
    }
}

/// Says that the value was set. It takes no memory.
fn say_set(out: &mut Text)
    requires { 128 ≤ room_of out.old }
    ensures text { out.new.bytes ≡ codes "ok global-set" ++ 10 ∷ [] }
    ensures room { 128 ≤ room_of out.new }
{
    out.clear();
    let Ok(()) = out.push("ok global-set\n") else {
        unreachable!();
    };
}

/// Tells the value.
fn tell_value(alloc: Global, value: Option<&Value>, out: &mut Text) -> Result<(), NoMemory>
    requires { IfSome (option_map datum_of (option_copied value)) HasText }
    ensures text { OnOk result (out.new.bytes ≡ codes "ok global-get "
        ++ printed_value (option_map datum_of (option_copied value.entry)) ++ 10 ∷ []) }
    ensures room { KeepsRoom out.old out.new }
{
    out.clear();
    out.push("ok global-get ")?;
    push_value(alloc, value, out)?;
    out.push("\n")
}

/// Says why the value was not set. The only error is out of memory.
fn refuse_to_set(fault: SetFault, out: &mut Text) -> Result<Reply, NoMemory>
    ensures refused { IfOk result (λ reply. (fault ≢ SetFault.NoMemory)
        × (reply ≡ reply_to_refusal (refusal_to_set fault))
        × (out.new.bytes ≡ refusal_text (refusal_to_set fault) ++ 10 ∷ [])) }
    ensures room { KeepsRoom out.old out.new }
{
    match fault {
        SetFault::UnknownGlobal => refuse_line(Refusal::UnknownGlobal, out),
        SetFault::BadValue => refuse_line(Refusal::BadValue, out),
        SetFault::NotAllowed => refuse_line(Refusal::NotAllowed, out),
        SetFault::NoMemory => Err(NoMemory),
    }
}

/// Says why the value is not told. The only error is out of memory.
fn refuse_to_get(fault: GlobalFault, out: &mut Text) -> Result<Reply, NoMemory>
    ensures refused { IfOk result (λ reply. (reply ≡ reply_to_refusal (refusal_to_get fault))
        × (out.new.bytes ≡ refusal_text (refusal_to_get fault) ++ 10 ∷ [])) }
    ensures room { KeepsRoom out.old out.new }
{
    match fault {
        GlobalFault::UnknownGlobal => refuse_line(Refusal::UnknownGlobal, out),
        GlobalFault::NotAllowed => refuse_line(Refusal::NotAllowed, out),
    }
}
