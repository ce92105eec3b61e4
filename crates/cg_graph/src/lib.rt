//! Games on graphs: Hackenbush, Col and Snort.
#![tactic(auto)]

mod coloured_graph;
mod coloured_graph_faults;
mod coloured_graph_moves;
mod drawing;
mod drawing_moves;
mod edge;
mod fault;
mod items;
mod labels;
pub mod laws;
mod neighbours;
mod reading;

pub use coloured_graph::Colouring;
pub use drawing::Hackenbush;
pub use edge::{ColouredEdge, Pair};
pub use fault::GraphFault;
