//! What the grammar of images says.
ghost use Rattle.std.specs.Prelude.{◌≡◌, ℕ, List, None};
ghost use Rattle.mica_words.specs.Packing.{AreBytes};
ghost use Rattle.partition_model.specs.declared.options.Options.{Options};
ghost use Rattle.mica_trace.specs.declared.report.Line.{Line};
ghost use Rattle.mica_trace.specs.ExactReport.{ExactReport};
ghost use Rattle.store_image.specs.ImageGrammar.{Pair, IsImage, SpellsImage, first_fault};
ghost use Rattle.store_image.specs.ImageLines.{put_lines};
ghost use Rattle.store_image.specs.ImageOf.{HasPairsOf};
ghost use Rattle.store_image.specs.Unpacked.{RefusesNothing};

use partition_model::Mode;

/// Bytes are the text of one image at most, and an image has one text.
pub fn one_image()
    ensures image { (text : List ℕ) (a b : List Pair) → SpellsImage text a → SpellsImage text b → a ≡ b }
    ensures text { (s t : List ℕ) (pairs : List Pair) → SpellsImage s pairs → SpellsImage t pairs → s ≡ t }
{}

/// Bytes have no first fault exactly where they are the text of an image.
pub fn faultless_is_image()
    ensures image { (bytes : List ℕ) → AreBytes bytes → first_fault bytes ≡ None → (pairs : List Pair) × SpellsImage bytes pairs }
    ensures no_fault { (bytes : List ℕ) (pairs : List Pair) → SpellsImage bytes pairs → first_fault bytes ≡ None }
{}

/// The lines of an image, replayed from nothing in store mode, leave the image again where none of them is refused.
pub fn unpacked_is_image()
    ensures { (options : Options) (pairs again : List Pair) (report : List Line) → options.mode ≡ Mode.Store → IsImage pairs → IsImage again
        → ExactReport options (put_lines pairs) report → HasPairsOf options (put_lines pairs) report again → RefusesNothing report → again ≡ pairs }
{}
