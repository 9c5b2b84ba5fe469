mod desk;
mod driving;
mod hands;
