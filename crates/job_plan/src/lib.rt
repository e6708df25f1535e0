//! What a job comes to: the stations with their recordings and delays, the channels and products, and the scans that are
//! correlated, with each station's part in them. It stands on `corr_model` for samples, delays, cells and records, on
//! `vdif_frame` for shapes, on `delay_poly` and `station_clock` for the lists of a station's model, and on `num_time` and
//! `item_list` for names and lists.
//!
//! `specs/Values` says which value a station has at a sample of a scan, `specs/Output` which records a plan comes to, and
//! `specs/Ranges` which plans there are. A `Plan0` holds one of these. (Thompson, Moran and Swenson, chapter 8.)
#![tactic(auto)]

mod plan;

pub use plan::{
    Band, BaselinePlan, Plan, Plan0, ProductPlan, Recorded, ScanPlan, StationPlan, StayPlan,
};
