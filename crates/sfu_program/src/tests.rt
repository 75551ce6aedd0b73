// The program's outputs and statuses, for each command.
mod addresses;
mod bundling;
mod calm;
mod check;
mod faults;
mod forwarding;
mod meeting;
mod record;
mod records;
mod run;
mod serve;
mod sizes;
mod together;
mod trial;
mod two_rooms;
mod words;
