//! The laws of the sizes.
ghost use Rattle.std.specs.Prelude.{◌≤◌, ◌+◌, ◌*◌, ℕ};
ghost use Rattle.partition_model.specs.declared.options.Mode.{Mode};
ghost use Rattle.partition_model.specs.declared.options.Options.{Options};
ghost use Rattle.partition_model.specs.Options.{InRange, IsPossible};
ghost use Rattle.partition_model.specs.declared.log_end.TheConstants.{LARGEST_STORED_ITEM};
ghost use Rattle.partition_sizes.specs.declared.sizes.TheConstants.{LEAST_MEMORY, MOST_MEMORY, PROGRAM_BYTES, ITEM_WORDS};
ghost use Rattle.partition_sizes.specs.Bytes.{bytes_of};
ghost use Rattle.partition_sizes.specs.Sizes.{with_sizes, share_of, items_for, sizes_for};

/// Options that are possible are so with the sizes for any memory, and then all partitions, and what is left to the program, take no more
/// than that memory. Each partition then has words for as many items as it is sized for, and buckets for them with ten each; and words for a dozen of
/// the longest items.
pub fn sizes_fit()
    ensures possible { (options : Options) (memory : ℕ) → InRange LEAST_MEMORY MOST_MEMORY memory → IsPossible options
        → IsPossible (with_sizes (sizes_for options.mode memory) options) }
    ensures within { (options : Options) (memory : ℕ) → InRange LEAST_MEMORY MOST_MEMORY memory
        → bytes_of (with_sizes (sizes_for options.mode memory) options) + PROGRAM_BYTES ≤ memory }
    ensures words { (mode : Mode) (memory : ℕ) → InRange LEAST_MEMORY MOST_MEMORY memory
        → ITEM_WORDS * items_for mode (share_of memory) ≤ (sizes_for mode memory).words }
    ensures longest { (mode : Mode) (memory : ℕ) → InRange LEAST_MEMORY MOST_MEMORY memory
        → 12 * LARGEST_STORED_ITEM ≤ (sizes_for mode memory).words }
    ensures buckets { (mode : Mode) (memory : ℕ) → InRange LEAST_MEMORY MOST_MEMORY memory
        → items_for mode (share_of memory) ≤ 10 * (sizes_for mode memory).buckets }
{}
