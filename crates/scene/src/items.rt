// What the items of a scene file are for: the pixel memory and the scene.
ghost use Rattle.std.specs.Prelude.{◌≡◌};
ghost use Rattle.list.specs.Appended.{Appended};
ghost use Rattle.scene.specs.Items.{filled, filled_all, elements, element_of};

use super::content::Item;
use list::Appender;
use model::Element;
use text::PixelRun;

// Where the run does not fit the memory, nothing is written.
fn fill_run(memory: &mut [u32], first: u32, run: PixelRun)
    ensures { memory.new ≡ filled first run memory.old }
{
    let start = first as usize;
    let end = start + run.count as usize;
    if end <= memory.len() {
        memory[start..end].fill(run.pixel);
    }
}

// Writes the pixels of the fills, in order. A fill that does not fit the memory is left out:
// a file that was parsed has none, where the memory is as large as its console says.
pub fn fill_memory(items: &[Item], memory: &mut [u32])
    ensures { memory.new ≡ filled_all memory.old items.now }
{
    for item in items {
        match *item {
            Item::Fill { first, run } => fill_run(memory, first, run),
            Item::Element(_) => {}
        }
    }
}

fn push_element(item: Item, out: &mut Appender<'_, Element>)
    ensures { Appended out.old out.new (element_of item) }
{
    if let Item::Element(element) = item {
        out.push(element);
    }
}

// Pushes the elements, in order.
pub fn collect_elements(items: &[Item], out: &mut Appender<'_, Element>)
    ensures { Appended out.old out.new (elements items.now) }
{
    for item in items {
        push_element(*item, out);
    }
}
