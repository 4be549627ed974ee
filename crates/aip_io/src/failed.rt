/// A shelf or a sink could not do what it was asked, and has counted a fault.
#[derive(Debug, Drop)]
pub struct Failed;
