// A trial: a proposal, with what the search for those that clash goes by.
ghost use Rattle.std.specs.Prelude.{◌≡◌, true, ◌*◌, ◌≤◌, length};
ghost use Rattle.index.specs.Index.{index_entry_size, is_index};

use clashing::Proposal;

// What is proposed, the bytes of part 3, which passed question 9, and room for a split at each of its places.
#[derive(Clone, Copy)]
pub struct Trial<'a, 'b> {
    pub proposal: Proposal<'a>,
    pub index: &'a [u8],
    pub splits: &'b [u16],
    ghost index_long: { length index.now ≡ index_entry_size * proposal.reel.count },
    ghost index_right: { is_index proposal.reel.marks.now proposal.schedule.now index.now proposal.reel.count ≡ true },
    ghost room: { proposal.reel.count ≤ length splits.now },
}
