mod payloads;
mod printed;
mod refusals;
mod refused;
mod schedules;
mod scripts;
mod support;
mod traces;
