// Product lists for C.
ghost use Rattle.std.specs.Prelude.{◌≡◌};
ghost use Rattle.products.specs.Answers.{standing_of};
ghost use Rattle.lambukir.specs.Lists.{product_standing};

use forms::refusals::Refusal;
use products::standings::Standing;

// lambukir_standing of the header.
#[repr(C)]
#[derive(Clone, Copy)]
pub struct ProductStanding {
    pub standing: u32,
    pub number: u32,
}

impl From<Result<Standing, Refusal>> for ProductStanding {
    ghost from_gives = { λ answer told. told ≡ product_standing answer };

    fn from(answer: Result<Standing, Refusal>) -> ProductStanding {
        ProductStanding {
            standing: products::standing_code(answer),
            number: products::standing_number(answer),
        }
    }
}

#[unsafe(no_mangle)]
pub extern "C" fn lambukir_product_standing(
    list: &[u8],
    name: u64,
    edition: u32,
    update: u32,
) -> ProductStanding
    ensures { result ≡ product_standing (standing_of list.now name edition update) }
{
    products::standing(list, name, edition, update).into()
}
