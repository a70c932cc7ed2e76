// Sets of racks: bits, rack 0 lowest.
ghost use Rattle.std.specs.Prelude.{◌≡◌, cond, ◌+◌, ◌*◌, ◌%◌};
ghost use Rattle.pages.specs.Racks.{most_racks, has, outside, set_of};

// The most racks that a hall has, and so the lines of a page.
pub const RACKS: usize = 8;

#[tactic(auto, using(crate::proofs::Sets::has_past))]
pub fn has(set: u8, rack: usize) -> bool
    ensures { result ≡ has set rack }
{
    rack < RACKS && (set >> rack) % 2 == 1
}

// One rack more below those of a set: the set moves up by one, and the new rack 0 is in it or not.
pub fn below_all(set: u8, new: bool) -> u8
    ensures { result ≡ cond new 1 0 + 2 * (set % 128) }
{
    set % 128 * 2 + u8::from(new)
}

// Whether a rack of a hall of `racks` racks is not in cf.
pub fn is_outside(cf: u8, racks: u8, rack: usize) -> bool
    ensures { result ≡ outside cf racks rack }
{
    rack < usize::from(racks) && !has(cf, rack)
}

// The racks of a hall of `racks` racks that are not in cf; with cf 0, all of them.
#[tactic(auto, using(crate::proofs::Sets::set_start, crate::proofs::Sets::outside_more, crate::proofs::Sets::set_ends))]
pub fn outside(cf: u8, racks: u8) -> u8
    ensures { result ≡ set_of most_racks (outside cf racks) }
{
    let mut set: u8 = 0;
    // From the highest rack down: a turn moves the set up by one.
    for rack in (0..RACKS).rev() {
        set = below_all(set, is_outside(cf, racks, rack));
    }
    set
}
