//! The unit's own document.
#![tactic(auto, unfolding(ld_formats::specs::Units::content_members, ld_formats::specs::Units::format, ld_formats::specs::Units::head), using(ld_json::proofs::First::says_more))]

ghost use Rattle.ld_formats.specs.Units.{format, level_words, content_members, head};
ghost use Rattle.ld_json.specs.Access.{IsObject};
ghost use Rattle.ld_shape.specs.Reading.{GivesOrSays};
ghost use Rattle.ld_shape.specs.Words.{one_of};

use crate::method::MethodShape;
use ld_base::{Id, PlainText};
use ld_json::{Code, Node, ReadFault};
use ld_model::{ItemList, Level, Method};
use ld_reader::ItemShape;
use ld_shape::{
    Identifier, Number, Reads, Text, Title, default_at, list_at, needed_at, optional_at,
};
use std::alloc::Global;
use std::marker::Model;

/// The number of sweeps of a settling that may fire, where the document says none.
const USUAL_TURNS: u32 = 64;

/// What the unit's own document holds.
#[derive(Drop)]
pub struct Head {
    /// The number of the format of the documents.
    pub format: u32,
    pub identifier: Id,
    pub level: Level,
    pub title: Option<PlainText>,
    /// The number of sweeps of a settling that may fire.
    pub turns: u32,
    pub metadata: Option<PlainText>,
    pub learning_objectives: ItemList,
    pub prerequisites: ItemList,
    pub method: Method,
}

impl Model for Head {
    ghost use Rattle.ld_formats.specs.Units.{Head as Told};
    ghost use Rattle.std.specs.Coded.{codes};
    ghost use Rattle.ld_model.specs.ExpressionCodes.{coded_term, coded_test};

    ghost Value = { Told };

    ghost coded = { Prim.hlevel (codes, coded_term, coded_test) };

    ghost view = { λ x. record {
      format = x.format;
      identifier = x.identifier;
      level = x.level;
      title = x.title;
      turns = x.turns;
      metadata = x.metadata;
      learning_objectives = x.learning_objectives;
      prerequisites = x.prerequisites;
      method = x.method;
    } };
}

/// The number of the format, which is 1.
pub struct Format;

impl Reads for Format {
    type Value = u32;

    ghost shape = { format };

    fn read(alloc: Global, node: &Node<'_, '_>) -> Result<u32, ReadFault> {
        let format = node.whole(alloc)?;
        if format != 1 {
            return Err(node.fault(alloc, Code::NotInProfile));
        }
        Ok(1)
    }
}

/// The level of a unit.
pub struct LevelWord;

impl Reads for LevelWord {
    type Value = Level;

    ghost shape = { one_of level_words };

    fn read(alloc: Global, node: &Node<'_, '_>) -> Result<Level, ReadFault> {
        match node.text(alloc)? {
            "A" => Ok(Level::A),
            "B" => Ok(Level::B),
            "C" => Ok(Level::C),
            _ => Err(node.fault(alloc, Code::WrongShape)),
        }
    }
}

/// The unit's own document.
pub struct HeadShape;

impl Reads for HeadShape {
    type Value = Head;

    ghost shape = { head };

    fn read(alloc: Global, node: &Node<'_, '_>) -> Result<Head, ReadFault> {
        node.only(
            alloc,
            &[
                "format",
                "identifier",
                "level",
                "title",
                "turns",
                "metadata",
                "learning-objectives",
                "prerequisites",
                "method",
            ],
        )?;
        let format = needed_at::<Format>(alloc, node, "format")?;
        let identifier = needed_at::<Identifier>(alloc, node, "identifier")?;
        let level = needed_at::<LevelWord>(alloc, node, "level")?;
        let (title, (turns, (metadata, (learning_objectives, (prerequisites, method))))) =
            content_at(alloc, node)?;
        Ok(Head {
            format,
            identifier,
            level,
            title,
            turns,
            metadata,
            learning_objectives,
            prerequisites,
            method,
        })
    }
}

/// What stands in the document after the level.
fn content_at(
    alloc: Global,
    node: &Node<'_, '_>,
) -> Result<
    (
        Option<PlainText>,
        (u32, (Option<PlainText>, (ItemList, (ItemList, Method)))),
    ),
    ReadFault,
>
    requires { IsObject node.now }
    ensures { GivesOrSays (content_members.shape.reading node.now) result }
{
    let title = optional_at::<Title>(alloc, node, "title")?;
    let turns = default_at::<Number<1, 256>>(alloc, node, "turns", USUAL_TURNS)?;
    let metadata = optional_at::<Text<0, 4096>>(alloc, node, "metadata")?;
    let learning_objectives = list_at::<ItemShape>(alloc, node, "learning-objectives")?;
    let prerequisites = list_at::<ItemShape>(alloc, node, "prerequisites")?;
    let method = needed_at::<MethodShape>(alloc, node, "method")?;
    Ok((
        title,
        (
            turns,
            (metadata, (learning_objectives, (prerequisites, method))),
        ),
    ))
}
