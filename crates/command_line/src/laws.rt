// The laws of the grammar: each function does nothing, and its contract is the law.
ghost use Rattle.std.specs.Prelude.{◌≡◌, ◌≤◌, ℕ, IsTrue, IsFalse, [], ◌∷◌, ◌++◌, Some, codes};
ghost use Rattle.clap.specs.Words.{Text};
ghost use Rattle.command_line.specs.{declared.task.Task.TheVariants.{Bench, New, Par, Recover, Run}, Requests.{geometry_with, request_of}, Values.{begins_with_hyphen, long_number_of}};
ghost use Rattle.iso_model.specs.{Geometry.is_valid, declared.access.Mode.Mode};
ghost use Rattle.script_model.specs.Text.{mode_of, number_of};

/// Every word that does not begin with a hyphen names an image, and after `--` every word does.
pub fn every_image_is_opened()
    ensures run { (program image : Text) → IsFalse (begins_with_hyphen image)
        → request_of (program ∷ codes "run" ∷ image ∷ []) ≡ Some (image, Run) }
    ensures run_behind_the_end { (program image : Text)
        → request_of (program ∷ codes "run" ∷ codes "--" ∷ image ∷ []) ≡ Some (image, Run) }
    ensures par { (program image : Text) → IsFalse (begins_with_hyphen image)
        → request_of (program ∷ codes "par" ∷ image ∷ []) ≡ Some (image, Par) }
    ensures par_behind_the_end { (program image : Text)
        → request_of (program ∷ codes "par" ∷ codes "--" ∷ image ∷ []) ≡ Some (image, Par) }
    ensures recover { (program image : Text) → IsFalse (begins_with_hyphen image)
        → request_of (program ∷ codes "recover" ∷ image ∷ []) ≡ Some (image, Recover) }
    ensures recover_behind_the_end { (program image : Text)
        → request_of (program ∷ codes "recover" ∷ codes "--" ∷ image ∷ []) ≡ Some (image, Recover) }
{}

/// Every image of every geometry that keeps the limits can be asked for.
pub fn every_geometry_is_made()
    ensures { (program image b n l m h t : Text) (block blocks log : ℕ) (mode : Mode) (hash tree : ℕ)
        → number_of b ≡ Some block → number_of n ≡ Some blocks
        → number_of l ≡ Some log → mode_of m ≡ Some mode → number_of h ≡ Some hash
        → number_of t ≡ Some tree
        → IsTrue (is_valid (geometry_with block blocks log mode hash tree))
        → request_of (program ∷ codes "new"
        ∷ (codes "--block-size=" ++ b) ∷ (codes "--blocks=" ++ n)
        ∷ (codes "--log=" ++ l) ∷ (codes "--mode=" ++ m) ∷ (codes "--hash=" ++ h)
        ∷ (codes "--tree=" ++ t) ∷ codes "--" ∷ image ∷ [])
        ≡ Some (image, New (geometry_with block blocks log mode hash tree)) }
{}

/// Every seed and every number of rounds that keeps its limit can be asked for.
pub fn every_bench_is_made()
    ensures { (program image s n : Text) (seed count : ℕ)
        → long_number_of s ≡ Some seed → number_of n ≡ Some count → count ≤ 100000
        → request_of (program ∷ codes "bench" ∷ codes "--" ∷ image ∷ s ∷ n ∷ [])
        ≡ Some (image, Bench seed count) }
{}
