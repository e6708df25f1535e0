//! The records of an integration.
ghost use Rattle.std.specs.Prelude.{◌≡◌, ◌≤◌, ◌*◌, length};
ghost use Rattle.sink_text.specs.Appends.{Appends};
ghost use Rattle.run_bins.specs.Rows.{bins_text, baselines_text, products_text};

use bin_records::write_bin_record;
use corr_model::{Cell, RecordAt};
use dev_traits::Sink;
use vis_records::SinkFault;

// How the cells of an integration stand: how many products, baselines, bins and lags there are.
#[derive(Drop)]
pub(crate) struct Sizes {
    pub(crate) products: usize,
    pub(crate) baselines: usize,
    pub(crate) bins: u32,
    pub(crate) lags: usize,
    pub(crate) ghost few_products: { products ≤ 256 },
    pub(crate) ghost few_baselines: { baselines ≤ 528 },
    pub(crate) ghost few_bins: { bins ≤ 64 },
    pub(crate) ghost few_lags: { lags ≤ 1024 },
}

// Appends the records of integration `m` of the scan with this number.
pub(crate) fn write_products<S: Sink>(
    number: u32,
    m: u64,
    sizes: &Sizes,
    cells: &[Cell],
    out: &mut S,
) -> Result<(), SinkFault>
    requires { length cells.now ≡ sizes.now.products * (sizes.now.baselines * (sizes.now.bins * sizes.now.lags)) }
    ensures { Appends (S.told out.old) (S.told out.new) (products_text number m sizes.now.products sizes.now.baselines sizes.now.bins sizes.now.lags cells.now) (S.faults out.old) (S.faults out.new) result }
{
    let width = sizes.baselines * (sizes.bins as usize * sizes.lags);
    for product in 0..sizes.products {
        let row = &cells[product * width..product * width + width];
        write_baselines(number, m, product as u32, sizes, row, out)?;
    }
    Ok(())
}

// Appends the records of a product.
fn write_baselines<S: Sink>(
    number: u32,
    m: u64,
    product: u32,
    sizes: &Sizes,
    cells: &[Cell],
    out: &mut S,
) -> Result<(), SinkFault>
    requires { length cells.now ≡ sizes.now.baselines * (sizes.now.bins * sizes.now.lags) }
    ensures { Appends (S.told out.old) (S.told out.new) (baselines_text number m sizes.now.baselines sizes.now.bins sizes.now.lags product cells.now) (S.faults out.old) (S.faults out.new) result }
{
    let width = sizes.bins as usize * sizes.lags;
    for baseline in 0..sizes.baselines {
        let at = RecordAt {
            scan: number,
            m,
            product,
            baseline: baseline as u32,
        };
        let row = &cells[baseline * width..baseline * width + width];
        write_row(&at, sizes.bins, sizes.lags, row, out)?;
    }
    Ok(())
}

// Appends the records of the bins of a product at a baseline.
fn write_row<S: Sink>(
    at: &RecordAt,
    bins: u32,
    lags: usize,
    cells: &[Cell],
    out: &mut S,
) -> Result<(), SinkFault>
    requires bins { bins ≤ 64 }
    requires lags { lags ≤ 1024 }
    requires room { length cells.now ≡ bins * lags }
    ensures { Appends (S.told out.old) (S.told out.new) (bins_text at.now bins lags cells.now) (S.faults out.old) (S.faults out.new) result }
{
    for bin in 0..bins {
        let start = bin as usize * lags;
        write_bin_record(at, bin, &cells[start..start + lags], out)?;
    }
    Ok(())
}
