// What is printed of a scene file, made in memory.
ghost use Rattle.std.specs.Prelude.{◌≡◌, ◌≤◌, Ok, Err, length, IfOk, IfErr};
ghost use Rattle.list.specs.Written.{written};
ghost use Rattle.model.specs.Scene.{picture};
ghost use Rattle.raster.specs.Raster.{raster};
ghost use Rattle.scene.specs.Items.{elements};
ghost use Rattle.report.specs.Report.{answer_line};
ghost use Rattle.draw.specs.Report.{memory_of, shown_answer, text_of, Reports};

use super::show::show_on;
use composer::Composer;
use list::Appender;
use model::{Element, Fault, Size};
use raster::frame_length;
use report::{write_answer, write_glass, write_rows};
use scene::{Item, SceneFile, collect_elements, fill_memory};
use std::alloc::{AllocError, Global};

// The text to print, and the glass itself if the scene was shown.
#[derive(Debug, Drop)]
pub(crate) struct Report {
    pub text: Vec<u8>,
    pub glass: Option<Vec<u32>>,
}

fn pixel_memory(heap: Global, file: &SceneFile) -> Result<Vec<u32>, AllocError>
    ensures { IfOk result (λ v. v.items ≡ memory_of file.now.console file.now.items.items) }
{
    let mut memory = vec![in heap; 0; file.console.pixels as usize]?;
    fill_memory(file.items.as_slice(), memory.as_mut_slice());
    Ok(memory)
}

// Puts the elements of a file into lent places, and answers how many there are. By the list that appends, and not by a `Vec`'s
// own push: the elements that a presenter is handed are listed by that one list.
fn put_elements(items: &[Item], places: &mut [Element]) -> usize
    ensures { length items.now ≤ length places.old → (places.new ≡ written places.old (elements items.now)) × (result ≡ length (elements items.now)) }
{
    let mut list = Appender::new(places);
    collect_elements(items, &mut list);
    list.count()
}

fn scene_elements(heap: Global, items: &[Item]) -> Result<Vec<Element>, AllocError>
    ensures { IfOk result (λ v. v.items ≡ elements items.now) }
{
    let mut places = vec![in heap; Element::default(); items.len()]?;
    let count = put_elements(items, places.as_mut_slice());
    places.truncate(count);
    Ok(places)
}

// The glass once a scene is shown on a composer, or why it is refused.
fn show_scene(
    heap: Global,
    size: Size,
    scene: &[Element],
    memory: &[u32],
) -> Result<Result<Vec<u32>, Fault>, AllocError>
    ensures shown { IfOk result (λ shown. IfOk shown (λ glass. shown_answer size scene.now (length memory.now) ≡ Ok tt)) }
    ensures glass { IfOk result (λ shown. IfOk shown (λ glass. glass.items ≡ raster size (picture scene.now memory.now))) }
    ensures refused { IfOk result (λ shown. IfErr shown (λ fault. shown_answer size scene.now (length memory.now) ≡ Err fault)) }
{
    let count = frame_length(size);
    let mut frame = vec![in heap; 0; count]?;
    let mut glass = vec![in heap; 0; count]?;
    let mut composer = Composer::new(frame.as_mut_slice(), size);
    let answer = show_on(&mut composer, scene, memory, glass.as_mut_slice());
    Ok(answer.map(|()| glass))
}

fn report_text(
    heap: Global,
    width: u32,
    shown: &Result<Vec<u32>, Fault>,
) -> Result<Vec<u8>, AllocError>
    ensures shown { IfOk shown.now (λ glass. IfOk result (λ v. v.items ≡ text_of width (Ok tt) glass.items)) }
    ensures refused { IfErr shown.now (λ fault. IfOk result (λ v. v.items ≡ answer_line (Err fault))) }
{
    let mut text = Vec::new(heap);
    match shown {
        Ok(glass) => {
            write_answer(&mut text, &Ok(()))?;
            write_glass(&mut text, glass)?;
            write_rows(&mut text, glass, width as usize)?;
        }
        Err(fault) => write_answer(&mut text, &Err(*fault))?,
    }
    Ok(text)
}

// Shows the scene of a file on a composer, and says what stands on the glass.
pub(crate) fn report_scene(heap: Global, file: &SceneFile) -> Result<Report, AllocError>
    ensures { IfOk result (Reports file.now.console file.now.items.items) }
{
    let memory = pixel_memory(heap, file)?;
    let scene = scene_elements(heap, file.items.as_slice())?;
    let size = file.console.size;
    let shown = show_scene(heap, size, scene.as_slice(), memory.as_slice())?;
    let text = report_text(heap, size.width, &shown)?;
    Ok(Report {
        text,
        glass: shown.ok(),
    })
}
