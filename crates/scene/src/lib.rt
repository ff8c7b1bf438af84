// Scene files: the screen, the pixels and the elements that a presenter is given to show.
#![tactic(auto)]

pub mod content;
mod items;
mod parse;
mod scene_line;

pub use content::{Console, Item, SceneFile};
pub use items::{collect_elements, fill_memory};
pub use parse::parse_scene;
