//! What the contracts of opening and committing imply. Nothing here runs; each function is a theorem.

ghost use Rattle.std.specs.Prelude.{◌≡◌, ◌⊎◌, ℕ, List, [], ◌++◌, length};
ghost use Rattle.forget_store.specs.AnyMessage.{AnyMessage};
ghost use Rattle.disk.specs.declared.calls.DiskCall.{DiskCall};
ghost use Rattle.disk.specs.Remains.{IsFrontOf, LeftBy};
ghost use Rattle.kept_log.specs.Format.{HasBlocks, front, tip_of, making, seen_by, IsRound, BringsNone};
ghost use Rattle.kept_log.specs.MessageList.{AreKept};
ghost use Rattle.kept_log.specs.JournaledLog.{committing, with_round};
ghost use Rattle.kept_log.specs.Startup.{IsWhole, IsDamaged, IsUnfinished, IsTorn};
ghost use Rattle.kept_log.specs.Life.{with_rounds, committed};

/// A file has one list of blocks, and they say one list of messages: so it has one log.
pub fn a_file_has_one_log()
    ensures { (file made time : List ℕ) (bodies others : List (List ℕ)) (messages more : List AnyMessage) (calls called : List DiskCall)
        → IsWhole file made bodies calls → AreKept bodies messages → IsWhole file time others called → AreKept others more
        → (bodies ≡ others) × (messages ≡ more) }
{}

/// A file that is opened isn't damaged at any place, nor is it unfinished.
pub fn a_journal_is_not_damaged()
    ensures damaged { (file made : List ℕ) (bodies : List (List ℕ)) (messages : List AnyMessage) (calls : List DiskCall) (at : ℕ)
        → IsWhole file made bodies calls → AreKept bodies messages → IsDamaged at file → ⊥ }
    ensures unfinished { (file made : List ℕ) (bodies : List (List ℕ)) (calls : List DiskCall) → IsWhole file made bodies calls → IsUnfinished file → ⊥ }
{}

/// After the calls of an opening a death leaves the file's blocks, and nothing after them. A death at any moment during them leaves the same blocks.
pub fn an_opening_keeps_the_blocks()
    ensures rests { (file left made : List ℕ) (bodies : List (List ℕ)) (calls : List DiskCall)
        → IsWhole file made bodies calls → LeftBy file (λ c. c ≡ file) calls left → left ≡ front made bodies }
    ensures any_moment { (file left made : List ℕ) (bodies : List (List ℕ)) (calls done : List DiskCall)
        → IsWhole file made bodies calls → IsFrontOf calls done → LeftBy file (λ c. c ≡ file) done left → BringsNone (seen_by file done) left
        → HasBlocks made bodies left }
{}

/// A logger opens a file, commits rounds, and dies at any moment of one more commit. It leaves a file with the blocks that it found and all rounds that it has
/// committed, with the last one or without it.
pub fn a_life_keeps_its_rounds()
    ensures { (file left made : List ℕ) (bodies rounds : List (List ℕ)) (last : List ℕ) (calls done : List DiskCall) → IsRound last
        → IsWhole file made bodies calls → IsFrontOf (committing (tip_of made (with_rounds bodies rounds)) last) done
        → LeftBy file (λ c. c ≡ file) (calls ++ (committed (tip_of made bodies) rounds ++ done)) left
        → BringsNone (seen_by file (calls ++ (committed (tip_of made bodies) rounds ++ done))) left
        → HasBlocks made (with_rounds bodies rounds) left ⊎ HasBlocks made (with_round (with_rounds bodies rounds) last) left }
{}

/// The same of a logger that makes its file, in an empty one.
pub fn a_first_life_keeps_its_rounds()
    ensures { (left made : List ℕ) (rounds : List (List ℕ)) (last : List ℕ) (done : List DiskCall) → length made ≡ 8 → IsRound last
        → IsFrontOf (committing (tip_of made (with_rounds [] rounds)) last) done
        → LeftBy [] (λ c. c ≡ []) (making made ++ (committed (tip_of made []) rounds ++ done)) left
        → BringsNone (seen_by [] (making made ++ (committed (tip_of made []) rounds ++ done))) left
        → HasBlocks made (with_rounds [] rounds) left ⊎ HasBlocks made (with_round (with_rounds [] rounds) last) left }
{}

/// A file that has blocks is opened with them, if what comes after them is what a death may leave: a part of one block.
pub fn what_stands_is_opened()
    ensures { (file made : List ℕ) (bodies : List (List ℕ)) (stands : HasBlocks made bodies file) → IsTorn (tip_of made bodies) stands.tail
        → (calls : List DiskCall) × IsWhole file made bodies calls }
{}
