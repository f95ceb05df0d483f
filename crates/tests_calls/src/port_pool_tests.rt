mod boxes;
mod pairs;
mod reports;
mod signals;
