//! The operators, one a file: the flow, its run, its poll. What `on_each` is given, and what several of them share, stands in files of
//! its own.

pub mod act;
pub mod again;
pub mod chunk;
pub mod chunked;
pub mod debounce;
pub mod distinct_by;
pub mod drop_while;
pub mod filter_map;
pub mod holding;
pub mod on_each;
pub mod on_empty;
pub mod on_start;
pub mod onward;
pub mod paced;
pub mod relay;
pub mod retry;
pub mod retry_when;
pub mod running_reduce;
pub mod sample;
pub mod scan;
pub mod take_while;
pub mod timeout;
pub mod transform_while;
pub mod with_index;
