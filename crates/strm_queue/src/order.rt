//! The order in which a queue serves its messages, whatever comes to it.

ghost use Rattle.std.specs.Prelude.{◌≡◌, ℕ, ◌++◌, List};
ghost use Rattle.strm_blocks.specs.Blocks.{Block};
ghost use Rattle.strm_queue.specs.Order.{Operation, IsOrdered, ServesAllInOrder, PutsNothingBack, lane, after_all, taken_all, put_all};

/// Whatever puts, put backs and takes come to an ordered queue, it stays in order, and each is served in order: a put
/// stands behind all of its rank, a put back before all of its rank, and a take gives the first of its rank where
/// nothing of a higher rank stands. Where nothing is put back, what is taken of one rank, and what stays, are what stood
/// there and what was put of it, first come first.
pub fn serves_in_order()
    ensures order { (operations : List Operation) (q : List (List Block)) → IsOrdered q →
        IsOrdered (after_all operations q) }
    ensures each { (operations : List Operation) (q : List (List Block)) → IsOrdered q → ServesAllInOrder operations q }
    ensures first_come { (operations : List Operation) (q : List (List Block)) (r : ℕ) → IsOrdered q →
        PutsNothingBack operations →
        lane r (taken_all operations q) ++ lane r (after_all operations q) ≡ lane r q ++ lane r (put_all operations) }
{}
