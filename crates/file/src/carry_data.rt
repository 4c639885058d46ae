// What a change writes of the units: their new blocks into the image, and their checksums into the book of groups.
ghost use Rattle.std.specs.Prelude.{◌≡◌, List, map, ℕ, ◌≤◌, length, take};
ghost use Rattle.rules.specs.Group.{encode_group};
ghost use Rattle.rules.specs.Book.{encode_book};
ghost use Rattle.rules.specs.Store.{Volume};
ghost use Rattle.rules.specs.Units.{Change};
ghost use Rattle.rules.specs.Rewrite.{Rewritten};
ghost use Rattle.rules.specs.Finish.{finished_groups, finished_image};
ghost use Rattle.kept.specs.Change.{ChangeFits};
ghost use Rattle.rewrite.specs.Plan.{laid_units};
ghost use Rattle.finish_units.specs.Carry.{UnitsFit, CarriesFor};
ghost use Rattle.finish_books.specs.Groups.{groups_in, GroupsRight, UnitsRight};
ghost use Rattle.file.specs.Room.{RoomFor};

// The book of `g` groups with the units' checksums, which stand in order at the head of `crcs`. There is room for the groups whatever the checksums are.
fn set_sums(groups: &mut [u8], g: usize, object: u64, units: &[u64], crcs: &[u32])
    requires groups_right { GroupsRight g groups.old × UnitsRight object (groups_in g groups.old) units.now }
    requires room_for { RoomFor object units.now g groups.old }
    requires units_in_bounds { length units.now ≤ length crcs.now }
    ensures { (rs : List Rewritten) → map (λ r. r.unit) rs ≡ units.now → take (length units.now) crcs.now ≡ map (λ r. r.checksum) rs → groups.new ≡ encode_book encode_group (length groups.old) (finished_groups object rs (groups_in g groups.old)) }
{
    let m = units.len();
    finish_books::groups::finish_groups(groups, g, object, units, &crcs[..m]);
}

// The units put together, checksummed and written, and the book of `g` groups with their checksums.
pub fn carry_data(
    image: &mut [u8],
    groups: &mut [u8],
    g: usize,
    uuid: &[u8],
    object: u64,
    old_size: u64,
    new_size: u64,
    offset: u64,
    bytes: &[u8],
    units: &[u64],
    slots: &[u64],
    old: &[u32],
    kept: &[u32],
    blocks: &[u32],
)
    requires change_fits { ChangeFits old_size new_size offset (length bytes.now) }
    requires units_fit { UnitsFit image.old new_size units.now slots.now old.now kept.now blocks.now }
    requires groups_right { GroupsRight g groups.old × UnitsRight object (groups_in g groups.old) units.now }
    requires room_for { RoomFor object units.now g groups.old }
    ensures by_index { (limit : ℕ) (v : Volume) (c : Change) → CarriesFor limit v c image.old uuid.now object old_size new_size offset bytes.now units.now slots.now old.now kept.now blocks.now → image.new ≡ finished_image (laid_units limit v c units.now blocks.now) image.old }
    ensures by_index_2 { (limit : ℕ) (v : Volume) (c : Change) → CarriesFor limit v c image.old uuid.now object old_size new_size offset bytes.now units.now slots.now old.now kept.now blocks.now → groups.new ≡ encode_book encode_group (length groups.old) (finished_groups object (laid_units limit v c units.now blocks.now) (groups_in g groups.old)) }
{
    let t = crc32c_tables::tables();
    let mut crcs = [0u32; 18];
    finish_units::write_units(
        &t, image, uuid, object, old_size, new_size, offset, bytes, units, slots, old, kept,
        blocks, &mut crcs,
    );
    set_sums(groups, g, object, units, &crcs);
}
