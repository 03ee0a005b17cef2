//! Who stands in which cluster, as rows of bits.

ghost use Rattle.std.specs.Prelude.{◌≡◌, ◌+◌, ◌*◌, IfOk, vec_len};
ghost use Rattle.house_base.specs.Setting.{size};
ghost use Rattle.house_base.specs.declared.rows.TheConstants.{ROW_WORDS};
ghost use Rattle.first_assign.specs.Members.{HasMembers};

use house_base::rows::{ROW_WORDS, set_bit};
use house_base::{Memory, Plan};
use std::alloc::Global;

/// The row in which each place is. Clusters count from 1.
pub const EVERYONE: u32 = 0;

/// The places of each cluster, in the row of its number, and all places in the row before.
pub fn members(alloc: Global, plan: &Plan) -> Result<Vec<u64>, Memory>
    ensures len { IfOk result (λ rows. vec_len rows ≡ (plan.now.clusters + 1) * ROW_WORDS) }
    ensures members { IfOk result (λ rows. HasMembers plan.now (size plan.now) rows.items) }
{
    let mut rows = vec![in alloc; 0; (plan.call().clusters as usize + 1) * ROW_WORDS]?;
    for place in 0..plan.count() {
        let cluster = plan.person(place).cluster;
        set_bit(&mut rows, EVERYONE, place, true);
        set_bit(&mut rows, cluster, place, true);
    }
    Ok(rows)
}
