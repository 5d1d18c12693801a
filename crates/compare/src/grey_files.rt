// `pgmnoise`, from an input's bytes to what it writes.
ghost use Rattle.std.specs.Prelude.{◌≤◌, length};
ghost use Rattle.lid_bytes.specs.Report.{report_bytes};
ghost use Rattle.text.specs.Placed.{Fronted};
ghost use Rattle.grey.specs.Grey.{grey_output, grey_said};
ghost use Rattle.grey.specs.Remark.{grey_remark_bytes};

// Answers how long its lines are; `said` holds at exit how long the remark is. Lengths beside slices: C lends both with room to
// spare, so `front` lays each text at the front of what is lent, and says how long it is.
pub fn vuzgari_compare_pgmnoise(
    input: &[u8],
    out: &mut [u8],
    remark: &mut [u8],
    said: &mut usize,
) -> usize
    requires { (report_bytes ≤ length out.old) × (grey_remark_bytes ≤ length remark.old) }
    ensures fronted { Fronted out.old (grey_output input.now) result out.new }
    ensures fronted_2 { Fronted remark.old (grey_said input.now) said.new remark.new }
{
    let texts = grey::pgmnoise(input);
    *said = text::front(remark, texts.remark.as_str().as_bytes());
    text::front(out, texts.output.as_str().as_bytes())
}
