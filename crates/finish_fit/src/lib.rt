// Whether the books that a change leaves fit into their buffers. It is known before anything is stored: the finished groups are counted where they
// are, and the extents that are put in are made in a lent buffer.
#![tactic(auto)]

ghost use Rattle.std.specs.Prelude.{◌*◌, ◌≤◌, length};
ghost use Rattle.rules.specs.Sizes.{most_blocks};
ghost use Rattle.rules.specs.Extent.{extent_bytes};
ghost use Rattle.rules.specs.Group.{group_bytes};
ghost use Rattle.mapping.specs.Entries.{extents_in, ExtentsRight};
ghost use Rattle.finish_books.specs.Groups.{groups_in, UnitsRight};
ghost use Rattle.finish_extents.specs.Stretch.{Planned};
ghost use Rattle.finish_fit.specs.Fits.{ExtentsAnswer, FitAnswer};

use checksum_group::GROUP_BYTES;
use finish_extents::Exchange;
use format::extent::EXTENT_BYTES;
use format::refusal::Refusal;

// How many groups there are after the change, and the exchange in the book of extents.
#[derive(Clone, Copy)]
pub struct Fit {
    pub groups: usize,
    pub exchange: Exchange,
}

// The exchange, whose extents are made in `made`; refused where the finished extents do not fit.
fn fit_extents(
    extents: &[u8],
    e: usize,
    object: u64,
    units: &[u64],
    blocks: &[u32],
    made: &mut [u8],
) -> Result<Exchange, Refusal>
    requires extents_right { ExtentsRight most_blocks e extents.now × Planned object units.now blocks.now (extents_in e extents.now) }
    requires extent_bytes_in_bounds { extent_bytes * 290 ≤ length made.old }
    ensures { ExtentsAnswer object units.now blocks.now e extents.now result made.new }
{
    let x = finish_extents::finished_extents(extents, e, object, units, blocks, made);
    if extents.len() / EXTENT_BYTES < e - x.cut + x.count {
        return Err(Refusal::NoExtentPlace);
    }
    Ok(x)
}

// How many groups there are after the change, and the exchange, whose extents stand in `made`. Refused first where the finished groups do not fit, then
// where the finished extents do not.
pub fn fit_books(
    extents: &[u8],
    e: usize,
    groups: &[u8],
    g: usize,
    object: u64,
    units: &[u64],
    blocks: &[u32],
    made: &mut [u8],
) -> Result<Fit, Refusal>
    requires extents_right { ExtentsRight most_blocks e extents.now × Planned object units.now blocks.now (extents_in e extents.now) }
    requires g_in_bounds { (group_bytes * g ≤ length groups.now) × UnitsRight object (groups_in g groups.now) units.now }
    requires extent_bytes_in_bounds { extent_bytes * 290 ≤ length made.old }
    ensures { FitAnswer object units.now blocks.now g groups.now e extents.now result made.new }
{
    let missing = finish_books::groups::missing_groups(groups, g, object, units);
    if groups.len() / GROUP_BYTES - g < missing {
        return Err(Refusal::NoGroupPlace);
    }
    let exchange = fit_extents(extents, e, object, units, blocks, made)?;
    Ok(Fit {
        groups: g + missing,
        exchange,
    })
}
