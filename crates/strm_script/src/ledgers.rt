//! The ledger of a direction, as it is printed.

ghost use Rattle.std.specs.Prelude.{◌≡◌, Some, slice_index_or};
ghost use Rattle.std.specs.List.{flat_map};
ghost use Rattle.strm_types.specs.Rules.{number_of};
ghost use Rattle.strm_script.specs.Script.{direction_name};
ghost use Rattle.strm_script.specs.ScriptAnswers.{rule_name, counted_text, line_text, Booked};

use std::fmt;
use strm_types::{Dir, Ledger, RULES, Rule};

/// The ledger of a direction.
#[derive(Clone, Copy)]
pub struct LedgerOf {
    pub direction: Dir,
    pub ledger: Ledger,
}

/// The rules, in the order of their numbers.
const IN_ORDER: [Rule; RULES] = [
    Rule::Read,
    Rule::Igncr,
    Rule::EraseKey,
    Rule::Erased,
    Rule::Killed,
    Rule::EofKey,
    Rule::SignalKey,
    Rule::FlowKey,
    Rule::LnextKey,
    Rule::ReprintKey,
    Rule::LineFull,
    Rule::LineOver,
    Rule::Flushed,
    Rule::RestDiscarded,
    Rule::ControlDropped,
    Rule::Doubled,
    Rule::ModulePopped,
    Rule::EndClosed,
    Rule::Replaced,
    Rule::Onocr,
    Rule::EchoFull,
];

/// The name of a direction.
fn direction_name(direction: Dir) -> &'static str
    ensures { result.now ≡ direction_name direction }
{
    match direction {
        Dir::MasterToSlave => "ms",
        Dir::SlaveToMaster => "sm",
    }
}

/// The name of a rule.
fn rule_name(rule: Rule) -> &'static str
    ensures { result.now ≡ rule_name rule }
{
    match rule {
        Rule::Read => "read",
        Rule::Igncr => "igncr",
        Rule::EraseKey => "erase-key",
        Rule::Erased => "erased",
        Rule::Killed => "killed",
        Rule::EofKey => "eof-key",
        Rule::SignalKey => "signal-key",
        Rule::FlowKey => "flow-key",
        Rule::LnextKey => "lnext-key",
        Rule::ReprintKey => "reprint-key",
        Rule::LineFull => "line-full",
        Rule::LineOver => "line-over",
        Rule::Flushed => "flushed",
        Rule::RestDiscarded => "rest-discarded",
        Rule::ControlDropped => "control-dropped",
        Rule::Doubled => "doubled",
        Rule::ModulePopped => "module-popped",
        Rule::EndClosed => "end-closed",
        Rule::Replaced => "replaced",
        Rule::Onocr => "onocr",
        Rule::EchoFull => "echo-full",
    }
}

/// How many bytes have gone by a rule.
fn counted(counts: &[u64; 21], rule: Rule) -> u64
    ensures { result ≡ slice_index_or counts.now (number_of rule) 0 }
{
    counts[rule.number()]
}

/// How many bytes have gone by a rule, as it is printed: nothing where none have.
#[derive(Drop)]
struct ShownRule<'a> {
    counts: &'a [u64; 21],
    rule: Rule,
}

impl fmt::Display for ShownRule<'_> {
    ghost output = { λ shown. Some (counted_text shown.counts.now shown.rule) };

    fn fmt<W: fmt::Write>(&self, f: &mut fmt::Formatter<W>) -> fmt::Result {
        let count = counted(self.counts, self.rule);
        if count == 0 {
            return Ok(());
        }
        let name = rule_name(self.rule);
        write!(f, " {name} {count}")
    }
}

/// How many bytes have gone by some rules, as they are printed, by the counts of all.
#[derive(Drop)]
struct ShownRules<'a> {
    counts: &'a [u64; 21],
    rules: &'a [Rule],
}

impl fmt::Display for ShownRules<'_> {
    ghost output = { λ shown. Some (flat_map (counted_text shown.counts.now) shown.rules.now) };

    fn fmt<W: fmt::Write>(&self, f: &mut fmt::Formatter<W>) -> fmt::Result {
        let counts = self.counts;
        let rules = self.rules;
        for rule in rules {
            let rule = *rule;
            let shown = ShownRule { counts, rule };
            write!(f, "{shown}")?;
        }
        Ok(())
    }
}

impl fmt::Display for LedgerOf {
    ghost output = { λ booked. Some (line_text (Booked booked.direction booked.ledger)) };

    #[tactic(auto, unfolding(crate::specs::ScriptAnswers::line_text))]
    fn fmt<W: fmt::Write>(&self, f: &mut fmt::Formatter<W>) -> fmt::Result {
        let direction = direction_name(self.direction);
        let written = self.ledger.written;
        let made = self.ledger.made;
        let queued = self.ledger.queued;
        let inline = self.ledger.inline;
        let rules = ShownRules {
            counts: &self.ledger.fates,
            rules: &IN_ORDER,
        };
        write!(
            f,
            "ledger {direction} written {written} made {made} queued {queued} inline {inline}{rules}"
        )
    }
}
