//! The rules of one history, by name.

use std::fmt;

/// A rule that a run may break.
#[derive(Clone, Copy, Debug, PartialEq, Eq)]
pub enum Rule {
    Begin,
    Entry,
    Fence,
    Again,
    Raise,
    Removal,
    Once,
    Write,
    Read,
    Value,
    List,
    Boundary,
    Claim,
    Conflict,
    Refusal,
    View,
}

impl fmt::Display for Rule {
    fn fmt<W: fmt::Write>(&self, f: &mut fmt::Formatter<W>) -> fmt::Result {
        f.write_str(match self {
            Rule::Begin => "a call began on a view, a base or a boundary that it may not name",
            Rule::Entry =>
                "an entry was not written directly on the one before it, as its call asks",
            Rule::Fence => "a holder added an entry below a greater epoch",
            Rule::Again => "a name was created again that was free no more, or not yet erased",
            Rule::Raise =>
                "the boundary was raised without its call, fell, or reached the newest entry",
            Rule::Removal => "a version above the boundary was removed, or without its call",
            Rule::Once => "a call that did not run was answered",
            Rule::Write => "a write was answered with what is not its own",
            Rule::Read =>
                "a read was answered with what was not the newest at any moment of its call",
            Rule::Value => "an unchecked read was answered with what is not that entry",
            Rule::List => "a listing was answered with what was listed at no moment of its call",
            Rule::Boundary => "a check, a delete or an advance was answered against the boundary",
            Rule::Claim => "a claim was answered with an epoch that it does not hold",
            Rule::Conflict => "a conflict was answered, and nobody overtook the base",
            Rule::Refusal => "a call was refused for no reason",
            Rule::View => "a view stands where it was not shown",
        })
    }
}

/// Whether a rule is kept, or else which is not.
pub type Kept = Result<(), Rule>;

/// What a rule comes to.
pub fn keeps(holds: bool, rule: Rule) -> Kept {
    if holds { Ok(()) } else { Err(rule) }
}
