//! When a view can be refreshed by its logs or by partitions, the first restriction that says otherwise, and the state of
//! a view, by what is known of its tables; and the union of intervals that are stale. Definitions and laws of them alone.
#![tactic(auto)]
