//! Reads the lines of cases of the test programs; small worked instances, and texts that other programs wrote, for tests.
#![tactic(auto)]

mod calls;
mod cases;
mod certificates;
mod fields;
mod instances;
mod named;
mod texts;
mod words;

pub use calls::{Wrong, bytes_of, call_and_text, comma_list, told};
pub use cases::{
    Case, EDGE_OF_TWO_CLOSED, LINE_OF_THREE, ONE_NODE, SECOND_OF_TWO, SHORTER_BACK, THREE_COSTS,
    TWO_CLOSED, TWO_NODES,
};
pub use certificates::{
    FORM_ALONE, ONE_NODE_BOUND, ONE_NODE_BRANCHED, ONE_NODE_CERTIFICATE, TWO_NODES_BRANCHED,
    TWO_NODES_CERTIFICATE, TWO_NODES_OTHER_PLAN, TWO_NODES_PLAN, TWO_NODES_TREE,
};
pub use fields::{instance_of_fields, nodes};
pub use instances::{NoInstance, instance};
pub use named::named_instance;
pub use texts::{ONE_NODE_FILE, TWO_NODES_FILE, changed};
pub use words::{behind, first, instance_line, list, node, number};
