// Rows of the grammar: each function does nothing, and its contract says what some words ask for, and which are refused.
ghost use Rattle.std.specs.Prelude.{◌≡◌, [], ◌∷◌, Some, None, codes};
ghost use Rattle.iso_model.specs.declared.access.Mode.TheVariants.{Serial, Snapshot};
ghost use Rattle.command_line.specs.{declared.task.Task.TheVariants.{New, Run, Par, Recover, Bench}, Requests.{Asks, IsOutside, geometry_with, request_of}};

/// Each command has its task, with the values given or those by default.
pub fn commands_have_their_tasks()
    ensures new { Asks (codes "isotope new a") (codes "a") (New (geometry_with 4096 1024 4194304 Serial 0 0)) }
    ensures new_with_options { Asks (codes "isotope new a --block-size 64 --blocks 16384 --log 67108864 --mode snapshot") (codes "a") (New (geometry_with 64 16384 67108864 Snapshot 0 0)) }
    ensures new_with_stores { Asks (codes "isotope new a --hash 8 --tree 2") (codes "a") (New (geometry_with 4096 1024 4194304 Serial 8 2)) }
    ensures new_full_of_stores { Asks (codes "isotope new a --block-size 256 --blocks 5 --tree 2 --hash 3") (codes "a") (New (geometry_with 256 5 4194304 Serial 3 2)) }
    ensures run { Asks (codes "isotope run a") (codes "a") Run }
    ensures par { Asks (codes "isotope par a") (codes "a") Par }
    ensures recover { Asks (codes "isotope recover a") (codes "a") Recover }
    ensures bench { Asks (codes "isotope bench a 18446744073709551615 100000") (codes "a") (Bench 18446744073709551615 100000) }
    ensures bench_of_nothing { Asks (codes "isotope bench a 0 0") (codes "a") (Bench 0 0) }
{}

/// Options come before or after the image, in any order, with `=` or as two words, until `--`.
pub fn options_stand_anywhere_behind_the_command()
    ensures before { Asks (codes "isotope new --log=64 a --mode serial") (codes "a") (New (geometry_with 4096 1024 64 Serial 0 0)) }
    ensures behind { Asks (codes "isotope new a --blocks=1 --block-size=128") (codes "a") (New (geometry_with 128 1 4194304 Serial 0 0)) }
    ensures ended { Asks (codes "isotope new --log 64 -- a") (codes "a") (New (geometry_with 4096 1024 64 Serial 0 0)) }
    ensures ended_behind { Asks (codes "isotope run a --") (codes "a") Run }
    ensures an_option_behind_the_end { Asks (codes "isotope new -- --log=64") (codes "--log=64") (New (geometry_with 4096 1024 4194304 Serial 0 0)) }
{}

/// The name of an image is any word, but after `--` alone one that begins with a hyphen and is longer.
pub fn an_image_may_have_these_names()
    ensures help { Asks (codes "isotope run help") (codes "help") Run }
    ensures command { Asks (codes "isotope run run") (codes "run") Run }
    ensures hyphen { Asks (codes "isotope run -") (codes "-") Run }
    ensures empty { request_of (codes "isotope" ∷ codes "run" ∷ [] ∷ []) ≡ Some ([], Run) }
    ensures spaced { request_of (codes "isotope" ∷ codes "run" ∷ codes "a b" ∷ [])
        ≡ Some (codes "a b", Run) }
    ensures behind_the_end { Asks (codes "isotope run -- -a") (codes "-a") Run }
    ensures hyphens { Asks (codes "isotope run -- --") (codes "--") Run }
{}

/// Outside the grammar: no command, one that is not there, built-in words, too few words and too many.
pub fn these_words_have_no_command()
    ensures no_words { request_of [] ≡ None }
    ensures no_command { IsOutside (codes "isotope") }
    ensures help { IsOutside (codes "isotope help") }
    ensures help_option { IsOutside (codes "isotope --help") }
    ensures version_option { IsOutside (codes "isotope -V") }
    ensures unknown { IsOutside (codes "isotope format a") }
    ensures abbreviated { IsOutside (codes "isotope rec a") }
    ensures no_image_of_a_par { IsOutside (codes "isotope par") }
    ensures ended { IsOutside (codes "isotope -- new a") }
    ensures option_before { IsOutside (codes "isotope --log 64 new a") }
    ensures no_image { IsOutside (codes "isotope new") }
    ensures two_images { IsOutside (codes "isotope new a b") }
    ensures two_ends { IsOutside (codes "isotope new a -- --") }
    ensures no_count { IsOutside (codes "isotope bench a 1") }
    ensures one_word_more { IsOutside (codes "isotope bench a 1 2 3") }
{}

/// Outside the grammar: options of other commands, unknown ones, those without a value, and those given twice.
pub fn these_words_have_a_wrong_option()
    ensures of_another_command { IsOutside (codes "isotope run a --log 64") }
    ensures of_a_new_image { IsOutside (codes "isotope par a --tree 4") }
    ensures abbreviated { IsOutside (codes "isotope new a --block 64") }
    ensures short { IsOutside (codes "isotope new a -l 64") }
    ensures help { IsOutside (codes "isotope new a --help") }
    ensures short_help { IsOutside (codes "isotope new a -h") }
    ensures version { IsOutside (codes "isotope new a --version") }
    ensures hyphenated_image { IsOutside (codes "isotope new -a") }
    ensures twice { IsOutside (codes "isotope new --log=64 a --log 64") }
    ensures no_value { IsOutside (codes "isotope new a --log") }
    ensures option_for_a_value { IsOutside (codes "isotope new a --log --blocks 4") }
    ensures end_for_a_value { IsOutside (codes "isotope new a --log -- 64") }
    ensures negative { IsOutside (codes "isotope new a --log -5") }
{}

/// Outside the grammar: numbers that are spelled in another way, and those outside their limits.
pub fn these_words_have_a_wrong_value()
    ensures empty { IsOutside (codes "isotope new a --log=") }
    ensures empty_word { request_of (codes "isotope" ∷ codes "new" ∷ codes "a" ∷ codes "--log" ∷ [] ∷ [])
        ≡ None }
    ensures hyphen { IsOutside (codes "isotope new a --log -") }
    ensures negative { IsOutside (codes "isotope new a --log=-64") }
    ensures signed { IsOutside (codes "isotope new a --log=+64") }
    ensures equals { IsOutside (codes "isotope new a --log=64=64") }
    ensures leading_zero { IsOutside (codes "isotope new a --log 064") }
    ensures hexadecimal { IsOutside (codes "isotope new a --log 0x40") }
    ensures small_log { IsOutside (codes "isotope new a --log 63") }
    ensures large_log { IsOutside (codes "isotope new a --log 67108865") }
    ensures very_large_log { IsOutside (codes "isotope new a --log 4294967360") }
    ensures no_blocks { IsOutside (codes "isotope new a --blocks 0") }
    ensures many_blocks { IsOutside (codes "isotope new a --blocks 16385") }
    ensures block_size { IsOutside (codes "isotope new a --block-size 96") }
    ensures small_store { IsOutside (codes "isotope new a --hash 2") }
    ensures small_tree { IsOutside (codes "isotope new a --tree 1") }
    ensures large_tree { IsOutside (codes "isotope new a --block-size 256 --blocks 16384 --tree 1537") }
    ensures tree_in_small_blocks { IsOutside (codes "isotope new a --block-size 128 --tree 2") }
    ensures stores_past_the_blocks { IsOutside (codes "isotope new a --blocks 4 --hash 3 --tree 2") }
    ensures tree_in_snapshot_mode { IsOutside (codes "isotope new a --tree 2 --mode snapshot") }
    ensures store_in_snapshot_mode { IsOutside (codes "isotope new a --hash 8 --mode snapshot") }
    ensures mode { IsOutside (codes "isotope new a --mode Serial") }
    ensures large_seed { IsOutside (codes "isotope bench a 18446744073709551616 1") }
    ensures signed_seed { IsOutside (codes "isotope bench a +1 1") }
    ensures large_count { IsOutside (codes "isotope bench a 1 100001") }
    ensures leading_zero_of_a_count { IsOutside (codes "isotope bench a 1 01") }
{}
