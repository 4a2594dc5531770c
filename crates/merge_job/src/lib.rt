//! The merge of layers of one memory into one page file, a few pages at a time.
#![tactic(auto)]

mod job;
mod laws;

pub use job::MergeJob;
pub use laws::{
    a_merge_is_kept_through_calls, a_merge_writes_one_file, a_merged_layer_reads_as_its_layers,
    a_step_leaves_one_less, layers_without_a_plan_are_few,
};
