mod gates;
mod shelf;
mod sink;
