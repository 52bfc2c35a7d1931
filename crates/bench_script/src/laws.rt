//! The laws of a bench: each function does nothing, and its contract is the law.
ghost use Rattle.std.specs.Prelude.{◌≡◌, ℕ, ◌+◌, ◌*◌, ◌≤◌, List, None, filter, length};
ghost use Rattle.script_model.specs.{declared.script.Line.Line, declared.script.Reply.Reply, Bench.{answers_to, bench_text, bench_world, is_committed, is_conflict}, Script.{after, replies, script}};
ghost use Rattle.iso_model.specs.{History.last, World.World};
ghost use Rattle.script_runner.specs.{Replies.{AreSameButShown, text_of}, Told.ArePlain};
ghost use Rattle.bench_script.specs.{Ends.{DrawnState, drawn_state}, Rounds.{AreRoundReplies, one_places}};

/// No line of a bench is bad: it is read to its end. No line calls a store.
pub fn drawn_scripts_are_good()
    ensures good { (seed count : ℕ) → count ≤ 100000 → (script (bench_text count seed)).bad ≡ None }
    ensures plain { (seed count : ℕ) → count ≤ 100000 → ArePlain (script (bench_text count seed)).lines }
{}

/// The script of a bench never fails as a source.
pub fn drawn_scripts_never_fail()
    ensures { (s : DrawnState) → (drawn_state s).faults ≡ 0 }
{}

/// What a bench is answered, but for the bytes that are shown: the first client's end is always a commit, and the second one's is a
/// conflict with it exactly in the rounds that draw one place twice, at the byte that the first client wrote.
pub fn rounds_conflict_where_places_meet()
    ensures replies { (seed count : ℕ) → count ≤ 100000 → AreRoundReplies count seed 0 (answers_to bench_world (script (bench_text count seed)).lines) }
    ensures conflicts { (seed count : ℕ) → count ≤ 100000
        → length (filter is_conflict (answers_to bench_world (script (bench_text count seed)).lines)) ≡ one_places count seed }
{}

/// Each of the two ends of a round is a commit or a conflict: the commits are twice the rounds less the conflicts.
pub fn commits_are_twice_the_rounds_less_the_conflicts()
    ensures { (seed count : ℕ) → count ≤ 100000
        → length (filter is_committed (answers_to bench_world (script (bench_text count seed)).lines))
        + length (filter is_conflict (answers_to bench_world (script (bench_text count seed)).lines)) ≡ 2 * count }
{}

/// How many replies to a bench tell of a commit is the number of the last commit once all its lines are answered.
pub fn the_last_commit_counts_all()
    ensures { (seed count : ℕ) → count ≤ 100000 → length (filter is_committed (answers_to bench_world (script (bench_text count seed)).lines))
        ≡ last (after bench_world (script (bench_text count seed)).lines).history }
{}

/// The model's replies to lines are one a line, and their text is that of these replies.
pub fn replies_are_one_a_line()
    ensures many { (W : World) (lines : List (ℕ × Line)) → length (answers_to W lines) ≡ length lines }
    ensures text { (W : World) (lines : List (ℕ × Line)) → text_of lines (answers_to W lines) ≡ replies W lines }
{}

/// Replies that are the same but for the bytes that they show have as many commits, and as many conflicts.
pub fn shown_bytes_are_not_counted()
    ensures commits { (xs ys : List Reply) → AreSameButShown xs ys → length (filter is_committed xs) ≡ length (filter is_committed ys) }
    ensures conflicts { (xs ys : List Reply) → AreSameButShown xs ys → length (filter is_conflict xs) ≡ length (filter is_conflict ys) }
{}
