ghost use Rattle.std.specs.Prelude.{◌≡◌, ◌≤◌, OnOk, OnErr, [], ◌∷◌, length};
ghost use Rattle.outside.specs.Counts.{Rose};
ghost use Rattle.outside.specs.Printer.{added};
ghost use Rattle.answer_lines.specs.Lines.{built_text, image_text};
ghost use Rattle.answer_lines.specs.declared.answer.Report.TheVariants as report;
ghost use Rattle.job_stages.specs.Printing.{Prints, PrintsFront, all_added};
ghost use Rattle.job_answers.specs.Printed.{Reports};
ghost use Rattle.image_jobs.specs.Printed.{image_lines, report_lines};

use crate::answering::full_at;
use answer_lines::{Answer, LINE_ROOM, Report, built_line, image_line};
use image_graph::Graph;
use job_answers::reported;
use outside::{PrintErr, Printer};

/// Prints the lines of a build that is done, and answers so. The sizes are those of the images' files in bytes, in the
/// graph's order.
pub fn report_built<P: Printer>(graph: &Graph, sizes: &[u64], out: &mut P) -> Answer
    requires each { length sizes.now ≡ length graph.now.order }
    ensures answer { Reports (report.Built (length sizes.now)) (P.faults out.old) (P.faults out.new) result }
    ensures prints { Prints (report_lines graph.now sizes.now) (P.lines out.old) (P.lines out.new) (P.faults out.old) (P.faults out.new) }
    ensures none_fell { P.faults out.old ≤ P.faults out.new }
{
    let printed = print_built(graph, sizes, out);
    reported(
        printed,
        Report::Built {
            images: sizes.len() as u64,
        },
    )
}

// The lines of the images, and that of their number; after one that fails, none.
fn print_built<P: Printer>(graph: &Graph, sizes: &[u64], out: &mut P) -> Result<(), PrintErr>
    requires each { length sizes.now ≡ length graph.now.order }
    ensures ok { OnOk result (P.faults out.new ≡ P.faults out.old) }
    ensures failed { OnErr result (Rose (P.faults out.old) (P.faults out.new)) }
    ensures prints { Prints (report_lines graph.now sizes.now) (P.lines out.old) (P.lines out.new) (P.faults out.old) (P.faults out.new) }
    ensures none_fell { P.faults out.old ≤ P.faults out.new }
{
    print_images(graph, graph.order.as_slice(), sizes, out)?;
    print_count(sizes.len() as u64, out)?;
    Ok(())
}

// The lines of the images of these numbers.
fn print_images<P: Printer>(
    graph: &Graph,
    images: &[u32],
    sizes: &[u64],
    out: &mut P,
) -> Result<(), PrintErr>
    requires each { length sizes.now ≡ length images.now }
    ensures ok { OnOk result (P.faults out.new ≡ P.faults out.old) }
    ensures printed { OnOk result (P.lines out.new ≡ all_added (P.lines out.old) (image_lines graph.now images.now sizes.now)) }
    ensures failed { OnErr result (Rose (P.faults out.old) (P.faults out.new)) }
    ensures front { OnErr result (PrintsFront (image_lines graph.now images.now sizes.now) (P.lines out.old) (P.lines out.new)) }
    ensures none_fell { P.faults out.old ≤ P.faults out.new }
{
    for (place, image) in images.iter().enumerate() {
        print_image(full_at(graph, *image), sizes[place], out)?;
    }
    Ok(())
}

fn print_image<P: Printer>(name: &str, size: u64, out: &mut P) -> Result<(), PrintErr>
    ensures ok { OnOk result (P.faults out.new ≡ P.faults out.old) }
    ensures printed { OnOk result (P.lines out.new ≡ added (P.lines out.old) (image_text name.now size)) }
    ensures failed { OnErr result (Rose (P.faults out.old) (P.faults out.new)) }
    ensures err { OnErr result (P.lines out.new ≡ P.lines out.old) }
    ensures none_fell { P.faults out.old ≤ P.faults out.new }
{
    let mut room = [0; LINE_ROOM];
    let length = image_line(name, size, &mut room);
    out.line(&room[..length])?;
    Ok(())
}

fn print_count<P: Printer>(images: u64, out: &mut P) -> Result<(), PrintErr>
    ensures ok { OnOk result (P.faults out.new ≡ P.faults out.old) }
    ensures printed { OnOk result (P.lines out.new ≡ added (P.lines out.old) (built_text images)) }
    ensures failed { OnErr result (Rose (P.faults out.old) (P.faults out.new)) }
    ensures err { OnErr result (P.lines out.new ≡ P.lines out.old) }
    ensures none_fell { P.faults out.old ≤ P.faults out.new }
{
    let mut room = [0; LINE_ROOM];
    let length = built_line(images, &mut room);
    out.line(&room[..length])?;
    Ok(())
}
