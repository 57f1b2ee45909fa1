ghost use Rattle.chainrun.specs.Room.{HaveRoom};

// The memory that a run is lent: the chain's store and work slice, the record in progress, a piece of the input, and the
// text of its lines.
#[derive(Drop)]
pub struct Memory<'a> {
    pub store: &'a mut [f64],
    pub work: &'a mut [f64],
    pub bytes: &'a mut [u8],
    pub piece: &'a mut [u8],
    pub text: &'a mut [u8],
    pub ghost room: { HaveRoom bytes.now piece.now text.now },
}
