// The walk over the lines of all instances, and its list.
ghost use Rattle.std.specs.Prelude.{◌≡◌, ◌+◌, ◌*◌, ◌≤◌, ◌<◌, length, take};
ghost use Rattle.below.specs.Below.{row};
ghost use Rattle.blocks.specs.Frame.{block_size};
ghost use Rattle.pages.specs.Pages.{at};
ghost use Rattle.pages.specs.Racks.{most_racks};
ghost use Rattle.book.specs.Lists.{listed, entered, marked, list_of, Entered, Walked};
ghost use Rattle.book.specs.Book.{page_at};

use crate::judging::{MOST_BLOCKS, block_at};
use fields::Field;
use pages::{Line, Mark, RACKS, Reading};

// The longest list: another reading on every line of 64 pages of 8 racks.
pub const LONGEST: usize = MOST_BLOCKS * RACKS;

// Where a reader's block has its page.
const PAGE: usize = 10;

#[tactic(auto, using(crate::proofs::Steps::line_of_page))]
fn line_at(blocks: &[u8], instance: usize, rack: usize) -> Line
    requires { (block_size * (instance + 1) ≤ length blocks.now) × (rack < most_racks) }
    ensures { result.mark ≡ at (page_at blocks.now instance) rack }
{
    Line::read(block_at(blocks, instance), PAGE + Line::SIZE * rack).value
}

// The whole list is looked at, without a way out: such a loop is worked off several numbers at a time.
#[tactic(auto, using(below::proofs::Tests::any_start, crate::proofs::Steps::any_next, crate::proofs::Steps::any_whole), unfolding(crate::specs::Lists::listed))]
fn is_listed(list: &[u32], number: u32) -> bool
    ensures { result ≡ listed number list.now }
{
    let mut found = false;
    for &other in list {
        found |= other == number;
    }
    found
}

// The count of the list with this reading, which is skipped where the list has it.
#[tactic(auto, using(crate::proofs::Steps::skipped, crate::proofs::Steps::added))]
fn enter_reading(list: &mut [u32], count: usize, reading: Reading) -> usize
    requires { count < length list.old }
    ensures { Entered (entered reading (take count list.old)) count result list.new }
{
    if is_listed(&list[..count], reading.0) {
        return count;
    }
    list[count] = reading.0;
    count + 1
}

// The same for a line: Nil is skipped.
fn enter(list: &mut [u32], count: usize, line: Line) -> usize
    requires { count < length list.old }
    ensures { Entered (marked line.mark (take count list.old)) count result list.new }
{
    match line.mark {
        Mark::Absent | Mark::Nil => count,
        Mark::Reading(reading) => enter_reading(list, count, reading),
    }
}

// Go by instance, then rack; the walk stops at the first absent line of any instance. The labelled loop is
// document 01's form, and its counters are what it goes by. The room and how many of it are the list stay
// apart, since the specs' `Walked` and `Entered` speak of both.
pub(crate) fn walk(blocks: &[u8], count: usize, racks: usize, list: &mut [u32]) -> usize
    requires { (block_size * count ≤ length blocks.now) × ((count * most_racks ≤ length list.old) × (racks ≤ most_racks)) }
    ensures { Walked (list_of racks (row count (page_at blocks.now))) result list.new }
{
    let mut listed = 0;
    'walk: for instance in 0..count {
        for rack in 0..racks {
            let line = line_at(blocks, instance, rack);
            if line.is_absent() {
                break 'walk;
            }
            listed = enter(list, listed, line);
        }
    }
    listed
}
