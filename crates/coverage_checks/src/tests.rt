mod goals;
mod programs;
mod sequences;
mod tables;
