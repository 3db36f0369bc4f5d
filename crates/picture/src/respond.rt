// The answer to one line of input.
ghost use Rattle.picture.specs.Responses.{Responds};

use crate::layout::lay_out;
use crate::request::read_request;
use grid::refusal::Refusal;

// Writes the picture that the line asks for to the front of the page, and answers how long it is.
#[tactic(auto, using(crate::proofs::Responses::drawn))]
pub fn respond(line: &[u8], page: &mut [u8]) -> Result<usize, Refusal>
    ensures { Responds line.now page.old result page.new }
{
    let request = read_request(line)?;
    lay_out(request.shape, page)
}
