//! How a plan is read.

ghost use Rattle.std.specs.Prelude.{◌↔◌, ◌≡◌, ◌<◌, length, IsSome, IfSome};
ghost use Rattle.std.specs.Option.{SomeIff};
ghost use Rattle.strm_bench.specs.Numbers.{IsNumber, number_of};
ghost use Rattle.strm_bench.specs.Plans.{IsPlan, IsRound, Says, SaysRound, act_by, stack_by, store_by, text_by, word};

use crate::plans::{Act, Plan, Round, Stack, Store, Text};

/// The plan that thirteen words say, each a number: how many pairs, rounds and messages that stand; blocks from 1 to 65536; the
/// entries of the journal; 1 for a warm plan and else 0; the store, 0 for linked raw blocks and 1 for tables; and the round: its act,
/// stack and text, counted from 0 as they are listed, the length of its lines, its size of at most 4096, and what it asks for.
pub fn read_plan(words: &[&str]) -> Option<Plan>
    ensures known { IsSome result ↔ IsPlan words.now }
    ensures numbers { IfSome result (Says words.now) }
{
    if words.len() != 13 {
        return None;
    }
    let pairs = number_at(words, 0)?;
    let rounds = number_at(words, 1)?;
    let standing = number_at(words, 2)?;
    let blocks = number_at(words, 3)?;
    let entries = number_at(words, 4)?;
    let warm = number_at(words, 5)?;
    let store = store_as(number_at(words, 6)?)?;
    let round = read_round(words)?;
    if blocks == 0 || blocks > 65536 || warm > 1 {
        return None;
    }
    Some(Plan {
        pairs,
        rounds,
        standing,
        blocks,
        entries,
        warm: warm == 1,
        store,
        round,
    })
}

// The round that the last six of a plan's words say.
fn read_round(words: &[&str]) -> Option<Round>
    requires { length words.now ≡ 13 }
    ensures known { IsSome result ↔ IsRound words.now }
    ensures numbers { IfSome result (SaysRound words.now) }
{
    let act = act_as(number_at(words, 7)?)?;
    let stack = stack_as(number_at(words, 8)?)?;
    let text = text_as(number_at(words, 9)?)?;
    let line = number_at(words, 10)?;
    let size = number_at(words, 11)?;
    let asked = number_at(words, 12)?;
    if size > 4096 {
        return None;
    }
    Some(Round {
        act,
        stack,
        text,
        line,
        size,
        asked,
    })
}

// What a number says is done in a round.
fn act_as(number: u32) -> Option<Act>
    ensures { result ≡ act_by number }
{
    match number {
        0 => Some(Act::Types),
        1 => Some(Act::TypesEchoed),
        2 => Some(Act::Keys),
        3 => Some(Act::Shows),
        4 => Some(Act::Messages),
        5 => Some(Act::Winsizes),
        6 => Some(Act::BandedMessages),
        7 => Some(Act::Images),
        8 => Some(Act::Restores),
        9 => Some(Act::Cuts),
        _ => None,
    }
}

// What a number says stands on the slave's stream.
fn stack_as(number: u32) -> Option<Stack>
    ensures { result ≡ stack_by number }
{
    match number {
        0 => Some(Stack::Nothing),
        1 => Some(Stack::Lines),
        2 => Some(Stack::Raw),
        _ => None,
    }
}

// The text that a number says.
fn text_as(number: u32) -> Option<Text>
    ensures { result ≡ text_by number }
{
    match number {
        0 => Some(Text::Letters),
        1 => Some(Text::Escapes),
        2 => Some(Text::Colours),
        _ => None,
    }
}

// The store that a number says.
fn store_as(number: u32) -> Option<Store>
    ensures { result ≡ store_by number }
{
    match number {
        0 => Some(Store::Linked),
        1 => Some(Store::Tables),
        _ => None,
    }
}

// The number that the word at a place spells.
fn number_at(words: &[&str], i: usize) -> Option<u32>
    requires { i < length words.now }
    ensures { SomeIff result (IsNumber (word words.now i)) (number_of (word words.now i)) }
{
    words[i].parse::<u32>().ok()
}
