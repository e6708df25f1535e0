//! The head of the text of bins.
ghost use Rattle.std.specs.Prelude.{◌≡◌};
ghost use Rattle.sink_text.specs.{Appends.{Appends}, Written.{Puts}};
ghost use Rattle.bin_records.specs.{Fronts.{head_front}, Texts.{bin_head_text}};

use dev_traits::Sink;
use sink_text::Stretch;
use vis_records::{SinkFault, VisHead, end, put_names, put_products, put_scans, put_u32, put_u64};

/// Appends the head of the text of bins, in stretches of up to 8,192 bytes. A turn of the pulse has `bins` of them. Where the
/// sink fails, what was appended before stays.
pub fn write_bin_head<S: Sink>(bins: u32, head: &VisHead, out: &mut S) -> Result<(), SinkFault>
    ensures { Appends (S.told out.old) (S.told out.new) (bin_head_text bins head.now) (S.faults out.old) (S.faults out.new) result }
{
    let mut stretch = Stretch::new();
    put_front(bins, head, &mut stretch, out);
    put_u32(head.products().len() as u32, &mut stretch, out);
    put_products(head.products(), &mut stretch, out);
    put_u32(head.scans().len() as u32, &mut stretch, out);
    put_scans(head.scans(), &mut stretch, out);
    end(stretch, out)
}

// Puts the mark, the number of bins, the sizes, and the stations behind their number.
fn put_front<S: Sink>(bins: u32, head: &VisHead, stretch: &mut Stretch, out: &mut S)
    ensures { Puts (head_front bins head.now) stretch.old stretch.new (S.told out.old) (S.told out.new) (S.faults out.old) (S.faults out.new) }
{
    stretch.put(b"VLBIBIN1", out);
    put_u32(bins, stretch, out);
    put_u32(head.lags(), stretch, out);
    put_u64(head.integration(), stretch, out);
    put_u64(head.rate(), stretch, out);
    put_u32(head.stations().len() as u32, stretch, out);
    put_names(head.stations(), stretch, out);
}
