//! What a death at any moment leaves of a journal. Nothing here runs; each function is a theorem.

ghost use Rattle.std.specs.Prelude.{◌≡◌, ◌⊎◌, ℕ, List, [], ◌∷◌, ◌++◌, length};
ghost use Rattle.std.specs.List.{AllByRecursion};
ghost use Rattle.disk.specs.declared.calls.DiskCall.{DiskCall};
ghost use Rattle.disk.specs.Remains.{IsFrontOf, LeftBy};
ghost use Rattle.kept_log.specs.Format.{HasBlocks, front, tip_of, keeping, mending, all_kept, seen_by, IsRound, BringsNone};

/// At any moment while a block is appended, a death leaves a file with the blocks before it, with the new one or without it.
pub fn a_death_leaves_before_or_after()
    ensures { (made : List ℕ) (bodies : List (List ℕ)) (body : List ℕ) (done : List DiskCall) (left : List ℕ) → length made ≡ 8 → IsRound body
        → IsFrontOf (keeping (tip_of made bodies) body) done → LeftBy (front made bodies) (λ c. c ≡ front made bodies) done left
        → BringsNone (seen_by (front made bodies) done) left → HasBlocks made bodies left ⊎ HasBlocks made (bodies ++ body ∷ []) left }
{}

/// Once a block is appended, a death leaves exactly the file that has it, with nothing after it.
pub fn what_is_kept_stays()
    ensures { (made : List ℕ) (bodies : List (List ℕ)) (body left : List ℕ)
        → LeftBy (front made bodies) (λ c. c ≡ front made bodies) (keeping (tip_of made bodies) body) left
        → left ≡ front made (bodies ++ body ∷ []) }
{}

/// Cutting off the bytes that a death has left after the blocks keeps the blocks. A death at any moment of it leaves the same blocks, and one afterwards
/// leaves nothing after them.
pub fn mending_keeps_the_blocks()
    ensures any_moment { (file left made : List ℕ) (bodies : List (List ℕ)) (done : List DiskCall) → HasBlocks made bodies file
        → IsFrontOf (mending (tip_of made bodies).end) done → LeftBy file (λ c. c ≡ file) done left → BringsNone (seen_by file done) left
        → HasBlocks made bodies left }
    ensures rests { (file left made : List ℕ) (bodies : List (List ℕ)) → HasBlocks made bodies file
        → LeftBy file (λ c. c ≡ file) (mending (tip_of made bodies).end) left → left ≡ front made bodies }
{}

/// A process cuts off what an earlier death has left in its file, appends blocks, and dies at any moment while it appends one more. It leaves the blocks that
/// it found, those that it appended, and the last one or not. The next process finds this file, and the same holds for it.
pub fn an_incarnation_keeps_all()
    ensures { (file left made : List ℕ) (bodies kept : List (List ℕ)) (last : List ℕ) (done : List DiskCall) → HasBlocks made bodies file → IsRound last
        → IsFrontOf (keeping (tip_of made (bodies ++ kept)) last) done
        → LeftBy file (λ c. c ≡ file) (mending (tip_of made bodies).end ++ (all_kept (tip_of made bodies) kept ++ done)) left
        → BringsNone (seen_by file (mending (tip_of made bodies).end ++ (all_kept (tip_of made bodies) kept ++ done))) left
        → HasBlocks made (bodies ++ kept) left ⊎ HasBlocks made ((bodies ++ kept) ++ last ∷ []) left }
{}

/// A file is read as one list of blocks only.
pub fn a_file_has_one_reading()
    ensures { (file made time : List ℕ) (bodies others : List (List ℕ)) → AllByRecursion IsRound bodies → AllByRecursion IsRound others
        → HasBlocks made bodies file → HasBlocks time others file → (made ≡ time) × (bodies ≡ others) }
{}
