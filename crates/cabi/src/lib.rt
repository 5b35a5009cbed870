// The C interface: reader, judge, layout maker, twin tool, page and strokes. Their structs are laid out as C has them.
// Each contract has the call's equations, and then what demands 1, 2 and 3, or the promises about the twin, the page and the strokes, conclude of it
// (demands/specs/Demands).
#![tactic(auto)]

ghost use Rattle.std.specs.Prelude.{◌≡◌};
ghost use Rattle.reader.specs.Read.{read_post};
ghost use Rattle.judge.specs.Judge.{judge_post};
ghost use Rattle.labelling.specs.Entry.{make_fault, make_answer, make_work};
ghost use Rattle.labelling.specs.Twin.{twin_area};
ghost use Rattle.twin.specs.Twin.{twin_post};
ghost use Rattle.page.specs.Page.{page_post, page_area};
ghost use Rattle.points.specs.Strokes.{flat_of};
ghost use Rattle.strokes.specs.Strokes.{stroke_post};
ghost use Rattle.demands.specs.Demands.{ServedByReader, ServedByJudge, TrueVerdict, Served, ContentsApart, BestOfLawful, ServedByTwin, ServedByPage, ServedByStrokes};

use faults::written::Written;
use judge::Verdict;
use points::flat::FlatStroke;
use reader::Sizes;

#[unsafe(no_mangle)]
pub extern "C" fn backbone_read(sheet: &[u32]) -> Sizes
    ensures value { result ≡ read_post sheet.now }
    ensures served_by_reader { ServedByReader sheet.entry.now result sheet.exit.now }
{
    reader::read_sheet(sheet)
}

#[unsafe(no_mangle)]
pub extern "C" fn backbone_judge(stored: &[u32]) -> Verdict
    ensures value { result ≡ judge_post stored.now }
    ensures served_by_judge { ServedByJudge stored.entry.now result stored.exit.now }
    ensures true_verdict { TrueVerdict stored.now result }
{
    judge::judge_layout(stored)
}

#[unsafe(no_mangle)]
pub extern "C" fn backbone_make(sheet: &[u32], work: &mut [u32], out: &mut [u32]) -> u32
    ensures value { result ≡ make_fault sheet.now work.old out.old }
    ensures work_after { work.new ≡ make_work sheet.now work.old out.old }
    ensures out_after { out.new ≡ make_answer sheet.now work.old out.old }
    ensures sheet_kept { sheet.exit.now ≡ sheet.entry.now }
    ensures served { Served sheet.now work.old out.old result work.new out.new }
    ensures contents_apart { ContentsApart sheet.now work.old out.old result out.new }
    ensures best_of_lawful { BestOfLawful sheet.now work.old out.old result out.new }
{
    maker::make_layout(sheet, work, out) as u32
}

#[unsafe(no_mangle)]
pub extern "C" fn backbone_twin(stored: &[u32], out: &mut [u32]) -> Written
    ensures value { result ≡ twin_post stored.now out.old }
    ensures out_after { out.new ≡ twin_area stored.now out.old }
    ensures stored_kept { stored.exit.now ≡ stored.entry.now }
    ensures served_by_twin { ServedByTwin stored.now out.old result out.new }
{
    twin::make_twin(stored, out)
}

#[unsafe(no_mangle)]
pub extern "C" fn backbone_page(stored: &[u32], page: &mut [u8]) -> Written
    ensures value { result ≡ page_post stored.now page.old }
    ensures page_after { page.new ≡ page_area stored.now page.old }
    ensures stored_kept { stored.exit.now ≡ stored.entry.now }
    ensures served_by_page { ServedByPage stored.now page.old result page.new }
{
    page::write_page(stored, page)
}

#[unsafe(no_mangle)]
pub extern "C" fn backbone_stroke_at(stored: &[u32], place: usize) -> FlatStroke
    ensures value { result ≡ flat_of (stroke_post stored.now place) }
    ensures served_by_strokes { ServedByStrokes stored.entry.now place result stored.exit.now }
{
    FlatStroke::from(strokes::stroke_at(stored, place))
}
