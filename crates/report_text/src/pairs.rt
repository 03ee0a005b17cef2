//! The text of an assignment.

ghost use Rattle.std.specs.Prelude.{◌≡◌, ◌++◌, ◌∷◌, [], codes, Contains, OnOk, OnErr, IfOk};
ghost use Rattle.house_base.specs.Grid.{cell};
ghost use Rattle.house_base.specs.Setting.{size};
ghost use Rattle.house_model.specs.Report.{line_of};
ghost use Rattle.house_model.specs.Texts.{pair_lines, pairs_text};

use house_base::{Grid, Memory, Name, Owner, Plan};
use line_text::Word::Text;
use line_text::push_line;
use std::alloc::Global;

/// Appends a line for each pair of an assignment, person by person in place order, and each person's by rising
/// distance. After an error the text is as before.
pub fn write_pairs(
    alloc: Global,
    plan: &Plan,
    pairs: &Grid,
    out: &mut Vec<u8>,
) -> Result<(), Memory>
    requires { pairs.now.side ≡ size plan.now }
    ensures ok { OnOk result (out.new.items ≡ out.old.items ++ pairs_text plan.now (cell pairs.now)) }
    ensures err { OnErr result (out.new.items ≡ out.old.items) }
{
    let text = pairs_text(alloc, plan, pairs)?;
    out.extend_from_slice(&text)?;
    Ok(())
}

/// The text of an assignment.
fn pairs_text(alloc: Global, plan: &Plan, pairs: &Grid) -> Result<Vec<u8>, Memory>
    requires { pairs.now.side ≡ size plan.now }
    ensures { IfOk result (λ text. text.items ≡ pairs_text plan.now (cell pairs.now)) }
{
    let mut text = Vec::new(alloc);
    for index in 0..plan.owners() {
        push_pairs(alloc, plan, pairs, &plan.owner(index), &mut text)?;
    }
    Ok(text)
}

/// Appends the lines of a person's pairs, by rising distance.
fn push_pairs(
    alloc: Global,
    plan: &Plan,
    pairs: &Grid,
    owner: &Owner,
    out: &mut Vec<u8>,
) -> Result<(), Memory>
    requires side { pairs.now.side ≡ size plan.now }
    requires person { Contains plan.now.owners owner.now }
    ensures { OnOk result (out.new.items ≡ out.old.items ++ pair_lines plan.now (cell pairs.now) owner.now) }
{
    let count = plan.count();
    for distance in 0..count {
        let place = (owner.first + 1 + distance) % count;
        if pairs.get(owner.first, place) {
            push_pair(alloc, owner.name, plan.person(place).name, out)?;
        }
    }
    Ok(())
}

/// Appends the line of a pair.
fn push_pair(alloc: Global, reviewer: Name, proposal: Name, out: &mut Vec<u8>) -> Result<(), Memory>
    ensures { OnOk result (out.new.items ≡
        out.old.items ++ line_of (codes "pair" ∷ reviewer ∷ proposal ∷ [])) }
{
    let words = [
        Text(b"pair"),
        Text(reviewer.bytes()),
        Text(proposal.bytes()),
    ];
    push_line(alloc, &words, out)
}
