ghost use Rattle.std.specs.Prelude.{◌≡◌};
ghost use Rattle.generator.specs.Matrix.{image as image_of};
ghost use Rattle.codes.specs.Matrices.{matrix_lawful};
ghost use Rattle.std.proofs.Common.{rules};

use crate::code::Code;
use generator::matrix::image;
use generator::record::Generator;

// The code of a lawful generator matrix. What the record promises of its matrix are the code's laws.
#[derive(Clone, Copy)]
pub struct MatrixCode {
    generator: Generator,
}

impl MatrixCode {
    pub fn new(generator: Generator) -> MatrixCode
        ensures { result.generator ≡ generator }
    {
        MatrixCode { generator }
    }

    pub fn generator(&self) -> Generator
        ensures { result ≡ self.now.generator }
    {
        self.generator
    }
}

impl Code for MatrixCode {
    ghost bits = { λ c. c.generator.width };

    ghost period = { λ c. c.generator.order };

    ghost map = { λ c. image_of c.generator.rows };

    ghost wide = { Prim.search rules };

    ghost turns = { Prim.search rules };

    ghost lawful = { λ c. matrix_lawful c.generator };

    fn width(&self) -> u16 {
        self.generator.width()
    }

    fn order(&self) -> u16 {
        self.generator.order()
    }

    fn multiply(&self, word: u16, exponent: u32) -> u16 {
        let rows = self.generator.rows();
        let mask = (1u32 << self.generator.width()) - 1;
        let mut product = (u32::from(word) & mask) as u16;
        for _ in 0..exponent % u32::from(self.generator.order()) {
            product = image(rows, product);
        }
        product
    }
}
