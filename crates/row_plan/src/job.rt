// A slice of rows as a job that a board hands out.
ghost use Rattle.std.specs.Prelude.{◌≡◌, ◌+◌, ◌<◌, ◌^◌, length, vec_len};
ghost use Rattle.pix_desc.specs.Frame.{frame_length};

use crate::plans::Plan;
use pix_meaning::Pair;
use slice_claim::Work;

/// Some rows of a frame that are to be converted: a raw frame of the source, with the whole palette
/// where it has one, and room for a raw frame of the target.
#[derive(Drop)]
pub struct SliceJob {
    pub(crate) number: u32,
    pub(crate) pair: Pair,
    pub(crate) width: u32,
    pub(crate) first: u32,
    pub(crate) rows: u32,
    pub(crate) input: Vec<u8>,
    pub(crate) output: Vec<u8>,
    pub ghost from_four: { length pair.from.desc.comps ≡ 4 },
    pub ghost to_four: { length pair.to.desc.comps ≡ 4 },
    pub ghost last: { first + rows < 2 ^ 32 },
    pub ghost input_size: { vec_len input ≡ frame_length pair.from.desc width rows },
    pub ghost output_size: { vec_len output ≡ frame_length pair.to.desc width rows },
}

impl SliceJob {
    ghost use Rattle.row_plan.specs.Jobs.{slice_origin, job_origin, IsConvertedJob};

    /// The job with this number, of `rows` rows of `width` pixels, whose first row is the row
    /// `first` of the whole frame. Input and output have the lengths of raw frames of that width
    /// and as many rows.
    pub fn new(
        number: u32,
        pair: Pair,
        width: u32,
        first: u32,
        rows: u32,
        input: Vec<u8>,
        output: Vec<u8>,
    ) -> SliceJob
        requires last { first + rows < 2 ^ 32 }
        requires input { vec_len input ≡ frame_length pair.from.desc width rows }
        requires output { vec_len output ≡ frame_length pair.to.desc width rows }
        ensures number { result.number ≡ number }
        ensures pair { result.pair ≡ pair }
        ensures origin { job_origin result ≡ slice_origin pair width first rows input.items }
    {
        SliceJob {
            number,
            pair,
            width,
            first,
            rows,
            input,
            output,
        }
    }

    /// Converts the rows: the job is done, and its number and its origin stay. It takes no memory.
    pub fn run(&mut self, plan: &Plan)
        requires { plan.now.pair ≡ self.old.pair }
        ensures done { IsConvertedJob self.new }
        ensures number { self.new.number ≡ self.old.number }
        ensures origin { job_origin self.new ≡ job_origin self.old }
    {
        plan.convert_rows(
            self.first,
            self.width,
            self.rows,
            &self.input,
            &mut self.output,
        );
    }

    /// The pair that it is for.
    pub fn pair(&self) -> &Pair
        ensures { result.now ≡ self.now.pair }
    {
        &self.pair
    }

    /// The width of its rows, in pixels.
    pub fn width(&self) -> u32
        ensures { result ≡ self.now.width }
    {
        self.width
    }

    /// The row of the whole frame at which it begins.
    pub fn first(&self) -> u32
        ensures { result ≡ self.now.first }
    {
        self.first
    }

    /// How many rows it has.
    pub fn rows(&self) -> u32
        ensures { result ≡ self.now.rows }
    {
        self.rows
    }

    /// The rows of the target; those of the source are dropped.
    pub fn into_output(self) -> Vec<u8>
        ensures { result ≡ self.output }
    {
        self.into_buffers().1
    }

    /// Its buffers, for another job: the rows of the source, and those of the target.
    pub fn into_buffers(self) -> (Vec<u8>, Vec<u8>)
        ensures input { result.0 ≡ self.input }
        ensures output { result.1 ≡ self.output }
    {
        let SliceJob { input, output, .. } = self;
        (input, output)
    }
}

impl Work for SliceJob {
    ghost use Rattle.row_plan.specs.Jobs.{job_number, job_origin, IsConvertedJob};

    ghost number_of = { job_number };

    ghost origin = { job_origin };

    ghost is_done = { IsConvertedJob };

    fn number(&self) -> u32 {
        self.number
    }
}
