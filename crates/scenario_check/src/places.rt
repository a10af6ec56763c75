//! The first of the places where rules are broken.
ghost use Rattle.std.specs.Prelude.{◌≡◌, Some, [], ◌∷◌};
ghost use Rattle.std.specs.Option.{is_some};
ghost use Rattle.std.specs.List.{flat_map};
ghost use Rattle.scenario_rules.specs.declared.mention.Mention.{Mention as AnyMention};
ghost use Rattle.scenario_rules.specs.Rules.{earlier_place, first_after, is_before, past, refused_names};
ghost use Rattle.name_table.specs.Tables.{found};
ghost use Rattle.scenario_check.specs.Words.{placed, word_reason};

use crate::words::word_reason;
use name_table::Names;
use scenario_grammar::{Place, RuleReason};
use scenario_rules::{Declared, Mention, Named};

fn is_before(p: Place, q: Place) -> bool
    ensures { result ≡ is_before p q }
{
    p.line < q.line || p.line == q.line && p.reason < q.reason
}

fn earlier_place(first: Option<Place>, place: Place) -> Place
    ensures { result ≡ earlier_place first place }
{
    match first {
        None => place,
        Some(other) => {
            if is_before(place, other) {
                place
            } else {
                other
            }
        }
    }
}

/// The first place, where one more may be refused.
pub(crate) fn noted(first: Option<Place>, line: u32, reason: Option<RuleReason>) -> Option<Place>
    ensures { result ≡ first_after first (placed line reason) }
{
    match reason {
        None => first,
        Some(reason) => Some(earlier_place(
            first,
            Place {
                line,
                reason: reason.number(),
            },
        )),
    }
}

/// The first place, where the lines of these names may be refused too.
pub(crate) fn noted_names(
    first: Option<Place>,
    reason: RuleReason,
    names: &[Named],
) -> Option<Place>
    ensures { result ≡ first_after first (refused_names reason names.now) }
{
    let mut least = first;
    for named in names {
        let place = Place {
            line: named.line,
            reason: reason.number(),
        };
        least = Some(earlier_place(least, place));
    }
    least
}

/// The first place, where the first name past so many may be refused too.
pub(crate) fn noted_past(first: Option<Place>, most: usize, names: &[Named]) -> Option<Place>
    ensures { result ≡ first_after first (refused_names RuleReason.TooMany (past most names.now)) }
{
    match names.get(most) {
        None => first,
        Some(named) => Some(earlier_place(
            first,
            Place {
                line: named.line,
                reason: RuleReason::TooMany.number(),
            },
        )),
    }
}

/// The first place, where the words of a function may be refused too.
#[tactic(auto, using(crate::proofs::FirstPlace::first_both))]
pub(crate) fn noted_words(
    first: Option<Place>,
    names: &Names<Declared>,
    locals: &Names<u32>,
    is_raw: bool,
    said: &[Mention],
) -> Option<Place>
    ensures { result ≡ first_after first (flat_map (λ (m : AnyMention). placed m.line (word_reason (found names.now) (λ x. is_some (found locals.now x)) is_raw m.says)) said.now) }
{
    let mut least = first;
    for mention in said {
        let reason = word_reason(names, locals, is_raw, mention.says);
        least = noted(least, mention.line, reason);
    }
    least
}
