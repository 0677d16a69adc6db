//! Walks along the links of a chain.
ghost use Rattle.std.specs.Prelude.{ℕ, ◌≡◌, ◌<◌, ◌≤◌, ◌-◌, List, length, slice_index_or, sum_by};
ghost use Rattle.strm_raw.specs.Numbered.{IsMsg, msg_number, row_at};
ghost use Rattle.strm_raw.specs.Raw.{IsChain, askew, block_no};

use crate::memory::Memory;
use crate::msg_nodes::MsgLink;

/// Block `at` of a chain, counted from the one to which a pointer leads.
pub(crate) fn block_link(memory: &Memory, first: MsgLink, at: usize) -> MsgLink
    requires { IsMsg memory.now.mat (length memory.now.rows) first }
    ensures there { IsMsg memory.now.mat (length memory.now.rows) result }
    ensures number { (is : List ℕ) → IsChain memory.now.rows (msg_number memory.now.mat first) is → at < length is
        → msg_number memory.now.mat result ≡ slice_index_or is at 0 }
{
    let mut link = first;
    let mut left = at;
    while left > 0 {
        let Some(next) = memory.message(link).next else {
            return link;
        };
        link = next;
        left -= 1;
    }
    link
}

/// The last block of a chain of at most so many blocks.
pub(crate) fn last_link(memory: &Memory, first: MsgLink, most: usize) -> MsgLink
    requires { IsMsg memory.now.mat (length memory.now.rows) first }
    ensures there { IsMsg memory.now.mat (length memory.now.rows) result }
    ensures number { (is : List ℕ) → IsChain memory.now.rows (msg_number memory.now.mat first) is → length is ≤ most
        → msg_number memory.now.mat result ≡ slice_index_or is (length is - 1) 0 }
{
    let Some(_) = memory.message(first).next else {
        return first;
    };
    walk_to_last(memory, first, most)
}

// The same by a walk.
fn walk_to_last(memory: &Memory, first: MsgLink, most: usize) -> MsgLink
    requires { IsMsg memory.now.mat (length memory.now.rows) first }
    ensures there { IsMsg memory.now.mat (length memory.now.rows) result }
    ensures number { (is : List ℕ) → IsChain memory.now.rows (msg_number memory.now.mat first) is → length is ≤ most
        → msg_number memory.now.mat result ≡ slice_index_or is (length is - 1) 0 }
{
    let mut link = first;
    let mut left = most;
    while left > 0 {
        let Some(next) = memory.message(link).next else {
            return link;
        };
        link = next;
        left -= 1;
    }
    link
}

/// How many blocks a chain of at most so many has.
pub(crate) fn chain_len(memory: &Memory, first: MsgLink, most: usize) -> usize
    requires { IsMsg memory.now.mat (length memory.now.rows) first }
    ensures { (is : List ℕ) → IsChain memory.now.rows (msg_number memory.now.mat first) is → length is ≤ most → result ≡ length is }
{
    let Some(_) = memory.message(first).next else {
        return 1;
    };
    walk_len(memory, first, most)
}

// The same by a walk.
fn walk_len(memory: &Memory, first: MsgLink, most: usize) -> usize
    requires { IsMsg memory.now.mat (length memory.now.rows) first }
    ensures { (is : List ℕ) → IsChain memory.now.rows (msg_number memory.now.mat first) is → length is ≤ most → result ≡ length is }
{
    let mut link = first;
    let mut left = most;
    while left > 0 {
        let Some(next) = memory.message(link).next else {
            return most - left + 1;
        };
        link = next;
        left -= 1;
    }
    most
}

/// How many bytes the blocks of a chain of at most so many blocks show.
pub(crate) fn chain_bytes(memory: &Memory, first: MsgLink, most: usize) -> usize
    requires there { IsMsg memory.now.mat (length memory.now.rows) first }
    requires straight { (i : ℕ) → askew (row_at i memory.now.rows) ≡ 0 }
    requires few { most ≤ 65536 }
    ensures { (is : List ℕ) → IsChain memory.now.rows (msg_number memory.now.mat first) is → length is ≤ most
        → result ≡ sum_by (λ i. length (block_no memory.now i).bytes) is }
{
    let node = memory.message(first);
    let Some(_) = node.next else {
        return memory.datum(node.number).bytes[node.start..node.end].len();
    };
    walk_bytes(memory, first, most)
}

// The same by a walk.
fn walk_bytes(memory: &Memory, first: MsgLink, most: usize) -> usize
    requires there { IsMsg memory.now.mat (length memory.now.rows) first }
    requires straight { (i : ℕ) → askew (row_at i memory.now.rows) ≡ 0 }
    requires few { most ≤ 65536 }
    ensures { (is : List ℕ) → IsChain memory.now.rows (msg_number memory.now.mat first) is → length is ≤ most
        → result ≡ sum_by (λ i. length (block_no memory.now i).bytes) is }
{
    let mut link = first;
    let mut left = most;
    let mut bytes = 0;
    while left > 0 {
        let node = memory.message(link);
        bytes += memory.datum(node.number).bytes[node.start..node.end].len();
        let Some(next) = node.next else {
            return bytes;
        };
        link = next;
        left -= 1;
    }
    bytes
}
