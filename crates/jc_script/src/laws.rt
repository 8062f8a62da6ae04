//! What strictness refuses is what reading ignores: a law, on the contract of a function without a body.

ghost use Rattle.std.specs.Prelude.{◌≡◌, ℕ, List, Some};
ghost use Rattle.serde_json.specs.Data.{Data};
ghost use Rattle.jc_model.specs.Runs.{Lives};
ghost use Rattle.jc_script.specs.Line.{line_of};
ghost use Rattle.jc_script.specs.Stray.{op_of, AgreeOn};

/// A line is read by the members that its op needs or may have, and by no other.
pub fn others_are_ignored()
    ensures { (lives : Lives) (n : ℕ) (op : List ℕ) (line line' : Data)
        → op_of line ≡ Some op → AgreeOn op line line'
        → line_of lives n line ≡ line_of lives n line' }
{}
