mod board;
mod gate;
mod hints;
mod lanes;
mod rounds;
mod workers;
